// What the cases share: a sender 100 below top 200 on stream 40000, and a report brought to it.
use address::Address;
use answer::{Delivered, Outcome, Refusal};
use sender::{Open, Phase, Sender};
use std::alloc::Global;
use std::convert::Infallible;
use std::process::Abort;
use std::test::Fail;
use store::{MadeOver, Store};
use wire::{Body, Hack, Packet, TreeId, write};

pub(crate) const SENDER: Address = Address {
    tree: TreeId([1, 2, 3, 4, 5, 6]),
    stream: 40000,
    number: 100,
};

pub(crate) const TOP: u16 = 200;

pub(crate) fn open<Q: MadeOver>(heap: Global, bytes: usize) -> Result<Open<Q>, Fail> {
    Ok(Sender::new(SENDER, TOP, Q::new(vec![in heap; 0u8; bytes]?)))
}

// Offers a payload to a buffer of `room` bytes. Bytes beyond the packet, and all of them on a refusal, stay as they were.
pub(crate) fn offer<Q: Store>(
    rt: &impl Abort,
    sender: &mut Open<Q>,
    payload: &[u8],
    room: usize,
) -> Result<usize, Refusal> {
    let mut out = [9u8; 40];
    let answer = sender.offer(payload, &mut out[0..room.min(40)]);
    let front = answer.unwrap_or(0);
    assert!(rt; out.iter().skip(front).all(|byte| *byte == 9));
    answer
}

// Offers a payload of one byte, `count` times.
pub(crate) fn offer_some<Q: Store>(rt: &impl Abort, sender: &mut Open<Q>, count: u32) {
    for _ in 0..count {
        assert_eq!(rt; offer(rt, sender, &[7], 23), Ok(23));
    }
}

pub(crate) fn report(serial: u32, lsn: u32, hsn: u32, first: u32) -> Hack {
    Hack {
        term: 1,
        serial,
        lsn,
        hsn,
        flags: [first, 0, 0, 0, 0, 0, 0, 0, 0],
    }
}

pub(crate) type Told = Result<Delivered, Refusal>;

pub(crate) const STALE: Told = Ok(Delivered {
    outcome: Outcome::Stale,
    reply: 0,
});

pub(crate) const TAKEN: Told = Ok(Delivered {
    outcome: Outcome::Taken,
    reply: 0,
});

// Brings a packet to the sender. Its reply buffer stays as it was.
pub(crate) fn bring<Q: Store, P: Phase>(
    rt: &impl Abort,
    sender: &mut Sender<Q, P>,
    writer: u16,
    addressee: u16,
    body: Body<Infallible>,
) -> Result<Told, Fail> {
    let mut bytes = [0u8; 74];
    let packet = Packet::bare(SENDER.tree, SENDER.stream, writer, addressee, body);
    let len = write(&packet, &mut bytes)?;
    let mut reply = [9u8; 26];
    let answer = sender.deliver(&bytes[0..len.min(74)], &mut reply);
    assert_eq!(rt; reply, [9u8; 26]);
    Ok(answer)
}
