// A queue and a station's archive: records are offered, archived out of order, and released. Each step ends in a match of its
// own, which prints what that step did.
use crate::packets::{LONGEST_PACKET, arrive, carry};
use crate::tell_refusal;
use queue::Queue;
use std::io;
use store::lowest::lowest_missing;
use store::{MadeOver, Store};

fn offer<Q: Store>(rt: &HostRuntime, queue: &mut Queue<Q>, text: &str) -> io::Result<()> {
    print!(rt; "  offer \"{text}\": ")?;
    match queue.offer(text.as_bytes()) {
        Ok(number) => println!(rt; "record {number}"),
        Err(refusal) => tell_refusal(rt, refusal),
    }
}

fn read_back<Q: Store>(rt: &HostRuntime, queue: &mut Queue<Q>, number: u32) -> io::Result<()> {
    let mut buffer = [b'.'; 24];
    print!(rt; "  read record {number}: ")?;
    let len = match queue.read(number, &mut buffer) {
        Ok(len) => len,
        Err(refusal) => return tell_refusal(rt, refusal),
    };
    match std::str::from_utf8(&buffer) {
        Ok(text) => println!(rt; "{len} bytes, buffer \"{text}\""),
        Err(_) => println!(rt; "{len} bytes"),
    }
}

fn archive<Q: Store, A: Store>(
    rt: &HostRuntime,
    queue: &mut Queue<Q>,
    station: &mut A,
    number: u32,
) -> io::Result<()> {
    print!(rt; "  record {number} reaches the station: ")?;
    match queue.pass_on(number, station) {
        Ok(()) => println!(rt; "archived"),
        Err(refusal) => tell_refusal(rt, refusal),
    }
}

fn tell_lowest<A: Store>(rt: &HostRuntime, station: &mut A) -> io::Result<()> {
    let low = lowest_missing(station, 1);
    println!(rt; "  the lowest record that the station lacks: {low}")
}

// Three records fill the queue; the archive gets them out of order, one of them twice.
fn fill_and_archive<Q: Store, A: Store>(
    rt: &HostRuntime,
    queue: &mut Queue<Q>,
    station: &mut A,
) -> io::Result<()> {
    offer(rt, queue, "lamp 4: red failed")?;
    offer(rt, queue, "detector 12: silent")?;
    offer(rt, queue, "phase 3: overran")?;
    offer(rt, queue, "cabinet: door open")?;
    read_back(rt, queue, 2)?;
    archive(rt, queue, station, 1)?;
    archive(rt, queue, station, 3)?;
    archive(rt, queue, station, 3)?;
    tell_lowest(rt, station)?;
    archive(rt, queue, station, 2)?;
    tell_lowest(rt, station)
}

// What the station holds without a gap is released, and the next record finds room.
fn release<Q: Store>(rt: &HostRuntime, queue: &mut Queue<Q>) -> io::Result<()> {
    println!(rt; "  release through 3")?;
    queue.release(3);
    read_back(rt, queue, 2)?;
    offer(rt, queue, "cabinet: door open")?;
    read_back(rt, queue, 4)
}

// The whole task, over one kind of store for the queue and one for the archive.
pub(crate) fn task<Q: MadeOver + Drop, A: MadeOver + Drop>(rt: &HostRuntime) -> anyhow::Result<()> {
    let mut queue = Queue::new(Q::new(vec![in rt.alloc(); 0u8; 1554]?));
    let mut station = A::new(vec![in rt.alloc(); 0u8; 2072]?);
    fill_and_archive(rt, &mut queue, &mut station)?;
    release(rt, &mut queue)?;
    let mut bytes = [0u8; LONGEST_PACKET];
    let packet = carry(rt, &mut queue, 4, &mut bytes)?;
    arrive(rt, packet, &mut station)?;
    let queued = queue.into_store().into_memory();
    let archived = station.into_memory();
    let queue_bytes = queued.len();
    let archive_bytes = archived.len();
    println!(rt; "  memory given back: {queue_bytes} and {archive_bytes} bytes")?;
    Ok(())
}
