// A record as the packet that carries it, and what a station makes of the packet, whole and damaged.
use crate::tell_refusal;
use answer::Refusal;
use queue::Queue;
use std::io;
use store::Store;
use store::checks::LONGEST;
use wire::{Body, Message, TreeId, read, write};

// The longest packet with a payload.
pub(crate) const LONGEST_PACKET: usize = 534;

fn tell_bytes(rt: &HostRuntime, bytes: &[u8]) -> io::Result<()> {
    print!(rt; "  ")?;
    for byte in bytes {
        print!(rt; "{byte:02x}")?;
    }
    println!(rt; "")
}

// The length that a call answered, or else 0, once its refusal is shown.
fn length_or_refusal(rt: &HostRuntime, answer: Result<usize, Refusal>) -> io::Result<usize> {
    match answer {
        Ok(len) => Ok(len),
        Err(refusal) => {
            tell_refusal(rt, refusal)?;
            Ok(0)
        }
    }
}

// Takes a record from the queue, and shows and gives the Data packet that carries it. It is written into `bytes`, so that no
// allocation can fail once the stores are made.
pub(crate) fn carry<'a, Q: Store>(
    rt: &HostRuntime,
    queue: &mut Queue<Q>,
    number: u32,
    bytes: &'a mut [u8; LONGEST_PACKET],
) -> io::Result<&'a [u8]> {
    let mut payload = [0u8; LONGEST];
    let len = length_or_refusal(rt, queue.read(number, &mut payload))?;
    let message = Message {
        tree: TreeId([10, 11, 12, 13, 14, 15]),
        stream: 40000,
        writer: 1,
        addressee: 0,
        body: Body::Data {
            number,
            payload: &payload[..len.min(LONGEST)],
        },
    };
    let len = length_or_refusal(rt, write(&message, bytes))?;
    let packet = &bytes[..len.min(LONGEST_PACKET)];
    println!(rt; "  record {number} as a packet of {len} bytes:")?;
    tell_bytes(rt, packet)?;
    Ok(packet)
}

// Puts the record that a packet carries, if any, into an archive, and answers its number.
fn take_record<A: Store>(packet: &[u8], station: &mut A) -> Result<Option<u32>, Refusal> {
    let Body::Data { number, payload } = read(packet)?.body else {
        return Ok(None);
    };
    station.put(number, payload)?;
    Ok(Some(number))
}

// What a station does with bytes from the channel.
fn receive<A: Store>(
    rt: &HostRuntime,
    what: &str,
    bytes: &[u8],
    station: &mut A,
) -> io::Result<()> {
    print!(rt; "  {what}: ")?;
    match take_record(bytes, station) {
        Ok(Some(number)) => println!(rt; "record {number} archived"),
        Ok(None) => println!(rt; "no record"),
        Err(refusal) => tell_refusal(rt, refusal),
    }
}

// The packet with one byte changed at a time.
fn receive_changed<A: Store>(rt: &HostRuntime, packet: &[u8], station: &mut A) -> io::Result<()> {
    let len = packet.len().min(LONGEST_PACKET);
    let mut bytes = [0u8; LONGEST_PACKET];
    for (what, at, byte) in [
        ("another version", 0, 48),
        ("another type", 1, 14),
        ("number 0", 19, 0),
    ] {
        bytes[..len].copy_from_slice(&packet[..len]);
        if let Some(place) = bytes.get_mut(at) {
            *place = byte;
        }
        receive(rt, what, &bytes[..len], station)?;
    }
    Ok(())
}

// The packet with one thing wrong at a time, and then whole, twice.
pub(crate) fn arrive<A: Store>(rt: &HostRuntime, packet: &[u8], station: &mut A) -> io::Result<()> {
    let len = packet.len();
    receive(rt, "only 15 bytes arrive", &packet[..len.min(15)], station)?;
    let shorter = &packet[..len.saturating_sub(1)];
    receive(rt, "the last byte is lost", shorter, station)?;
    receive_changed(rt, packet, station)?;
    receive(rt, "as it was written", packet, station)?;
    receive(rt, "the same again", packet, station)
}
