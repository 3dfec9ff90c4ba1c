// A control node over bytes: tree 1 to 6, stream 40000, number 5 below node 2, children 7 and 8.
use address::Address;
use answer::{Delivered, Outcome, Refusal};
use control::node::Control;
use member::check::check as check_making;
use member::types::{Identity, Upper};
use rows::table::RowTable;
use std::alloc::Global;
use std::convert::Infallible;
use std::process::Abort;
use std::test::Fail;
use wire::{Body, Hack, Packet, TreeId, write};

const ADDRESS: Address = Address {
    tree: TreeId([1, 2, 3, 4, 5, 6]),
    stream: 40000,
    number: 5,
};

const NODE: Identity = Identity {
    address: ADDRESS,
    upper: Upper::Parent(2),
    limit: 5000,
};

fn with_address(address: Address) -> Identity {
    Identity { address, ..NODE }
}

fn node(heap: Global) -> Result<Control, Fail> {
    Ok(Control::new(NODE, RowTable::new(heap, &[7, 8])?))
}

type Told = Result<Delivered, Refusal>;

// What is told of a packet that was taken, with a reply of so many bytes.
fn taken(reply: usize) -> Told {
    Ok(Delivered {
        outcome: Outcome::Taken,
        reply,
    })
}

// The same of a stale packet.
fn stale(reply: usize) -> Told {
    Ok(Delivered {
        outcome: Outcome::Stale,
        reply,
    })
}

// Brings a packet to the node. The bytes lie on the stack with a length beside: a heap would be one more thing to pass.
fn bring(
    node: &mut Control,
    clock: u32,
    writer: u16,
    body: Body<Infallible>,
    reply: &mut [u8],
) -> Result<Told, Fail> {
    let mut bytes = [0u8; 74];
    let len = write(
        &Packet::bare(ADDRESS.tree, 40000, writer, 0, body),
        &mut bytes,
    )?;
    Ok(node.deliver(clock, &bytes[0..len.min(74)], reply))
}

// Joined at term 1 from number 38 on, in slot 3.
fn joined(rt: &impl Abort, heap: Global) -> Result<Control, Fail> {
    let mut node = node(heap)?;
    let mut out = [0u8; 26];
    assert_eq!(rt; node.join(&mut out), Ok(20));
    let confirm = Body::JoinConfirm {
        term: 1,
        start: 38,
        slot: 3,
    };
    assert_eq!(rt; bring(&mut node, 0, 2, confirm, &mut out)?, taken(0));
    Ok(node)
}

#[test]
fn makings(rt: HostRuntime) {
    assert_eq!(rt; check_making(NODE, 16, 9999, &[7, 8]), Ok(()));
    assert_eq!(rt; check_making(NODE, 1, 1, &[]), Ok(()));
    assert_eq!(rt; check_making(NODE, 0, 1, &[]), Err(Refusal::OutOfRange));
    assert_eq!(rt; check_making(NODE, 17, 1, &[]), Err(Refusal::OutOfRange));
    assert_eq!(rt; check_making(NODE, 2, 0, &[]), Err(Refusal::OutOfRange));
    assert_eq!(rt; check_making(NODE, 2, 10000, &[]), Err(Refusal::OutOfRange));
    assert_eq!(rt; check_making(NODE, 1, 1, &[7, 8]), Err(Refusal::OutOfRange));
    assert_eq!(rt; check_making(NODE, 2, 1, &[7, 7]), Err(Refusal::OutOfRange));
    assert_eq!(rt; check_making(NODE, 2, 1, &[7, 0]), Err(Refusal::OutOfRange));
    assert_eq!(rt; check_making(NODE, 2, 1, &[5]), Err(Refusal::OutOfRange));
    assert_eq!(rt; check_making(NODE, 2, 1, &[2]), Err(Refusal::OutOfRange));
}

#[test]
fn numbers_and_stream(rt: HostRuntime) {
    assert_eq!(rt;
        check_making(
            with_address(Address {
                stream: 32768,
                ..ADDRESS
            }),
            2,
            1,
            &[],
        ),
        Ok(())
    );
    assert_eq!(rt;
        check_making(
            with_address(Address {
                stream: 32767,
                ..ADDRESS
            }),
            2,
            1,
            &[],
        ),
        Err(Refusal::OutOfRange)
    );
    assert_eq!(rt;
        check_making(
            with_address(Address {
                number: 0,
                ..ADDRESS
            }),
            2,
            1,
            &[]
        ),
        Err(Refusal::OutOfRange)
    );
    assert_eq!(rt;
        check_making(
            with_address(Address {
                number: 2,
                ..ADDRESS
            }),
            2,
            1,
            &[]
        ),
        Err(Refusal::OutOfRange)
    );
    assert_eq!(rt;
        check_making(
            Identity {
                upper: Upper::Sender(0),
                ..NODE
            },
            2,
            1,
            &[],
        ),
        Err(Refusal::OutOfRange)
    );
}

// Another stream, another addressee, a type not taken and a short buffer, each before the next.
#[test]
fn deliver_refuses(rt: HostRuntime) -> Result<(), Fail> {
    let mut node = node(rt.alloc())?;
    let mut bytes = [0u8; 20];
    let ask = Body::JoinStream { term: 1 };
    assert_eq!(rt;
        node.deliver(0, &bytes[0..15], &mut []),
        Err(Refusal::ShortPacket)
    );
    let _ = write(&Packet::bare(TreeId([0; 6]), 40000, 99, 6, ask), &mut bytes)?;
    assert_eq!(rt; node.deliver(0, &bytes, &mut []), Err(Refusal::OtherStream));
    let _ = write(&Packet::bare(ADDRESS.tree, 40001, 99, 6, ask), &mut bytes)?;
    assert_eq!(rt; node.deliver(0, &bytes, &mut []), Err(Refusal::OtherStream));
    let _ = write(&Packet::bare(ADDRESS.tree, 40000, 99, 6, ask), &mut bytes)?;
    assert_eq!(rt;
        node.deliver(0, &bytes, &mut []),
        Err(Refusal::OtherAddressee)
    );
    let _ = write(&Packet::bare(ADDRESS.tree, 40000, 2, 5, ask), &mut bytes)?;
    assert_eq!(rt; node.deliver(0, &bytes, &mut []), Err(Refusal::NotTaken));
    let _ = write(&Packet::bare(ADDRESS.tree, 40000, 7, 5, ask), &mut bytes)?;
    let mut reply = [170u8; 26];
    assert_eq!(rt;
        node.deliver(0, &bytes, &mut reply[0..25]),
        Err(Refusal::ShortOutput)
    );
    assert!(rt; reply == [170u8; 26]);
    assert_eq!(rt; node.deliver(0, &bytes, &mut reply), stale(20));
    Ok(())
}

// Two children join and report; the node's report joins them.
#[test]
fn reports_of_two(rt: HostRuntime) -> Result<(), Fail> {
    let mut node = joined(&rt, rt.alloc())?;
    let mut out = [0u8; 74];
    assert_eq!(rt; node.report(&mut out), Err(Refusal::NoLiveRow));
    assert_eq!(rt;
        bring(&mut node, 10, 7, Body::JoinStream { term: 1 }, &mut out)?,
        taken(26)
    );
    // Byte 1 is the packet's type, by the numbers of docs/PROTOCOL.md: these cases look at the bytes.
    assert!(rt; out[1] == 6 && out[13] == 7 && out[23] == 38 && out[25] == 0);
    assert_eq!(rt;
        bring(&mut node, 10, 8, Body::JoinStream { term: 1 }, &mut out)?,
        taken(26)
    );
    assert!(rt; out[13] == 8 && out[25] == 1);
    let first = Hack {
        term: 1,
        serial: 1,
        lsn: 40,
        hsn: 72,
        flags: [0xff7e_dc7f, 0xff80_0000, 0, 0, 0, 0, 0, 0, 0],
    };
    assert_eq!(rt;
        bring(&mut node, 20, 7, Body::Hack(first), &mut out)?,
        taken(0)
    );
    let second = Hack {
        term: 1,
        serial: 1,
        lsn: 38,
        hsn: 74,
        flags: [0xfdfe_dd7f, 0xff60_0000, 0, 0, 0, 0, 0, 0, 0],
    };
    assert_eq!(rt;
        bring(&mut node, 20, 8, Body::Hack(second), &mut out)?,
        taken(0)
    );
    assert_eq!(rt; node.report(&mut out), Ok(46));
    assert!(rt;
        &out[16..46]
            == b"\x00\x00\x00\x01\x00\x00\x00\x01\x00\x00\x00\x26\x00\x00\x00\x4a\x00\x00\x00\x25\x00\x02\xfd\x7e\xdc\x7f\xff\x00\x00\x00".as_slice()
    );
    Ok(())
}

// Lost in silence, a child joins again with a higher term; what is left of its first time is turned away.
#[test]
fn child_rejoins(rt: HostRuntime) -> Result<(), Fail> {
    let mut node = joined(&rt, rt.alloc())?;
    let mut out = [0u8; 74];
    assert_eq!(rt;
        bring(&mut node, 0, 7, Body::JoinStream { term: 1 }, &mut out)?,
        taken(26)
    );
    node.tick(5000);
    assert_eq!(rt;
        bring(&mut node, 5000, 2, Body::Heartbeat { clock: 9 }, &mut out)?,
        taken(24)
    );
    node.tick(5001);
    assert_eq!(rt;
        bring(
            &mut node,
            5001,
            7,
            Body::HeartbeatResponse { term: 1, clock: 9 },
            &mut out,
        )?,
        stale(20)
    );
    assert_eq!(rt;
        bring(&mut node, 5001, 7, Body::JoinStream { term: 1 }, &mut out)?,
        stale(20)
    );
    assert!(rt; out[1] == 10);
    assert_eq!(rt;
        bring(&mut node, 5001, 7, Body::JoinStream { term: 2 }, &mut out)?,
        taken(26)
    );
    let old = Hack {
        term: 1,
        serial: 9,
        lsn: 50,
        hsn: 49,
        flags: [0; 9],
    };
    assert_eq!(rt;
        bring(&mut node, 5002, 7, Body::Hack(old), &mut out)?,
        stale(20)
    );
    Ok(())
}

#[test]
fn beats(rt: HostRuntime) -> Result<(), Fail> {
    let mut short = [0u8; 19];
    let mut out = [0u8; 20];
    let outside = node(rt.alloc())?;
    assert_eq!(rt; outside.beat(77, &mut short), Err(Refusal::WrongStanding));
    let node = joined(&rt, rt.alloc())?;
    assert_eq!(rt; node.beat(77, &mut short), Err(Refusal::ShortOutput));
    assert_eq!(rt; node.beat(77, &mut out), Ok(20));
    assert!(rt; out[1] == 8 && out[12] == 0 && out[13] == 0 && out[19] == 77);
    Ok(())
}
