// Each packet by itself, so that a failure names its line.
// A control node, number 5 below node 2, with children 7 and 8. Node 2 with node 1 above is the top.
use address::Address;
use answer::{Outcome, Refusal};
use control::kind::Rows;
use member::member::Member;
use member::types::{FromParent, Heard, Identity, Response, Standing, Upper};
use rows::row::FromChild;
use rows::table::RowTable;
use std::alloc::Global;
use std::process::Abort;
use std::test::Fail;
use wire::TreeId;

type Control = Member<Rows<RowTable>>;

fn made(
    heap: Global,
    number: u16,
    upper: Upper,
    standing: Standing,
    term: u32,
) -> Result<Control, Fail> {
    let address = Address {
        tree: TreeId([1, 2, 3, 4, 5, 6]),
        stream: 40000,
        number,
    };
    let identity = Identity {
        address,
        upper,
        limit: 5000,
    };
    let table = RowTable::new(heap, &[7, 8])?;
    Ok(Member {
        identity,
        standing,
        term,
        start: 1,
        slot: 0,
        serial: 0,
        heard: 0,
        kind: Rows { low: 1, table },
    })
}

fn node(heap: Global) -> Result<Control, Fail> {
    made(heap, 5, Upper::Parent(2), Standing::Outside, 0)
}

// Joined at term 1 from number 10 on, in slot 3, heard at 1000.
fn joined(rt: &impl Abort, heap: Global) -> Result<Control, Fail> {
    let mut node = node(heap)?;
    let mut out = [0u8; 20];
    assert_eq!(rt; node.join(&mut out), Ok(20));
    assert_eq!(rt;
        node.take(
            FromParent::JoinConfirm {
                term: 1,
                start: 10,
                slot: 3,
            },
            1000,
        )
        .outcome,
        Outcome::Taken
    );
    Ok(node)
}

fn admit_child(node: &mut Control, clock: u32) {
    let _ = node.kind.table.take(
        7,
        true,
        node.kind.low,
        FromChild::JoinStream { term: 1 },
        clock,
    );
}

#[test]
fn joins(rt: HostRuntime) -> Result<(), Fail> {
    let mut node = node(rt.alloc())?;
    let mut out = [0u8; 20];
    assert_eq!(rt; node.join(&mut out[0..19]), Err(Refusal::ShortOutput));
    assert_eq!(rt; node.term, 0);
    assert_eq!(rt; node.join(&mut out), Ok(20));
    assert!(rt;
        out == *b"\x20\x04\x01\x02\x03\x04\x05\x06\x9c\x40\x00\x05\x00\x02\x00\x00\x00\x00\x00\x01"
    );
    assert_eq!(rt; node.join(&mut out), Ok(20));
    assert_eq!(rt; (node.standing, node.term), (Standing::Waiting, 1));
    assert_eq!(rt;
        node.take(
            FromParent::JoinConfirm {
                term: 1,
                start: 10,
                slot: 3,
            },
            1000,
        )
        .outcome,
        Outcome::Taken
    );
    assert_eq!(rt;
        (node.standing, node.start, node.slot),
        (Standing::Joined, 10, 3)
    );
    assert_eq!(rt; (node.serial, node.heard, node.kind.low), (0, 1000, 10));
    assert_eq!(rt; node.join(&mut out), Err(Refusal::WrongStanding));
    Ok(())
}

#[test]
fn last_term(rt: HostRuntime) -> Result<(), Fail> {
    let mut node = made(rt.alloc(), 5, Upper::Parent(2), Standing::Outside, u32::MAX)?;
    assert_eq!(rt; node.join(&mut []), Err(Refusal::Exhausted));
    node.standing = Standing::Waiting;
    assert_eq!(rt; node.join(&mut []), Err(Refusal::ShortOutput));
    let mut out = [0u8; 20];
    assert_eq!(rt; node.join(&mut out), Ok(20));
    assert_eq!(rt; node.term, u32::MAX);
    Ok(())
}

#[test]
fn leaves(rt: HostRuntime) -> Result<(), Fail> {
    let mut out = [0u8; 20];
    let mut fresh = node(rt.alloc())?;
    assert_eq!(rt; fresh.leave(&mut out), Err(Refusal::WrongStanding));
    let mut node = joined(&rt, rt.alloc())?;
    admit_child(&mut node, 1000);
    assert_eq!(rt; node.leave(&mut []), Err(Refusal::HasLiveRow));
    node.kind.table.kill_all();
    assert_eq!(rt; node.leave(&mut []), Err(Refusal::ShortOutput));
    assert_eq!(rt; node.leave(&mut out), Ok(20));
    assert_eq!(rt; (node.standing, node.term), (Standing::Outside, 1));
    assert_eq!(rt; node.leave(&mut out), Ok(20));
    Ok(())
}

#[test]
fn top(rt: HostRuntime) -> Result<(), Fail> {
    let mut top = made(rt.alloc(), 2, Upper::Sender(1), Standing::Joined, 1)?;
    let mut out = [0u8; 74];
    assert_eq!(rt; top.join(&mut out), Err(Refusal::WrongStanding));
    assert_eq!(rt; top.leave(&mut out), Err(Refusal::WrongStanding));
    assert!(rt; !top.tick(u32::MAX));
    assert_eq!(rt; top.report(&mut out), Err(Refusal::NoLiveRow));
    admit_child(&mut top, 0);
    assert_eq!(rt; top.report(&mut out), Ok(38));
    assert!(rt; out[10] == 0 && out[11] == 2 && out[12] == 0 && out[13] == 1);
    Ok(())
}

#[test]
fn silence(rt: HostRuntime) -> Result<(), Fail> {
    let mut node = joined(&rt, rt.alloc())?;
    admit_child(&mut node, 6000);
    assert!(rt; !node.tick(0));
    assert!(rt; !node.tick(6000));
    assert!(rt; node.kind.table.any_live());
    assert!(rt; node.tick(6001));
    assert_eq!(rt; node.standing, Standing::Outside);
    assert!(rt; !node.kind.table.any_live());
    assert!(rt; !node.tick(u32::MAX));
    Ok(())
}

#[test]
fn reports(rt: HostRuntime) -> Result<(), Fail> {
    let mut out = [0u8; 74];
    let mut outside = node(rt.alloc())?;
    assert_eq!(rt; outside.report(&mut out), Err(Refusal::WrongStanding));
    let mut node = joined(&rt, rt.alloc())?;
    assert_eq!(rt; node.report(&mut out), Err(Refusal::NoLiveRow));
    admit_child(&mut node, 1000);
    assert_eq!(rt; node.report(&mut out[0..37]), Err(Refusal::ShortOutput));
    assert_eq!(rt; node.serial, 0);
    assert_eq!(rt; node.report(&mut out), Ok(38));
    assert_eq!(rt; (node.serial, node.kind.low), (1, 10));
    node.serial = u32::MAX;
    assert_eq!(rt; node.report(&mut []), Err(Refusal::Exhausted));
    Ok(())
}

// The answer to a packet that gets no response.
fn expect(rt: &impl Abort, heard: Heard, outcome: Outcome) {
    let expected = Heard {
        outcome,
        response: None,
    };
    assert_eq!(rt; heard, expected);
}

#[test]
fn packets_when_outside(rt: HostRuntime) -> Result<(), Fail> {
    let mut node = made(rt.alloc(), 5, Upper::Parent(2), Standing::Outside, 1)?;
    expect(
        &rt,
        node.take(FromParent::JoinAck { term: 1 }, 1),
        Outcome::Stale,
    );
    expect(
        &rt,
        node.take(
            FromParent::JoinConfirm {
                term: 1,
                start: 1,
                slot: 0,
            },
            1,
        ),
        Outcome::Stale,
    );
    expect(
        &rt,
        node.take(FromParent::Heartbeat { clock: 9 }, 1),
        Outcome::Stale,
    );
    expect(
        &rt,
        node.take(FromParent::Eject { term: 1 }, 1),
        Outcome::Stale,
    );
    expect(
        &rt,
        node.take(FromParent::LeaveConfirm { term: 2 }, 1),
        Outcome::Stale,
    );
    expect(
        &rt,
        node.take(FromParent::LeaveConfirm { term: 1 }, 1),
        Outcome::Taken,
    );
    assert_eq!(rt; (node.standing, node.heard), (Standing::Outside, 0));
    Ok(())
}

#[test]
fn packets_when_waiting(rt: HostRuntime) -> Result<(), Fail> {
    let mut node = made(rt.alloc(), 5, Upper::Parent(2), Standing::Waiting, 2)?;
    expect(
        &rt,
        node.take(FromParent::Heartbeat { clock: 9 }, 1),
        Outcome::Stale,
    );
    expect(
        &rt,
        node.take(FromParent::LeaveConfirm { term: 2 }, 1),
        Outcome::Stale,
    );
    expect(
        &rt,
        node.take(FromParent::JoinAck { term: 1 }, 1),
        Outcome::Stale,
    );
    expect(
        &rt,
        node.take(FromParent::JoinAck { term: 2 }, 1),
        Outcome::Taken,
    );
    expect(
        &rt,
        node.take(
            FromParent::JoinConfirm {
                term: 1,
                start: 1,
                slot: 0,
            },
            1,
        ),
        Outcome::Stale,
    );
    expect(
        &rt,
        node.take(FromParent::Eject { term: 1 }, 1),
        Outcome::Stale,
    );
    assert_eq!(rt; (node.standing, node.heard), (Standing::Waiting, 0));
    expect(
        &rt,
        node.take(FromParent::Eject { term: 2 }, 1),
        Outcome::Taken,
    );
    assert_eq!(rt; node.standing, Standing::Outside);
    Ok(())
}

#[test]
fn packets_when_joined(rt: HostRuntime) -> Result<(), Fail> {
    let mut node = joined(&rt, rt.alloc())?;
    admit_child(&mut node, 1000);
    expect(
        &rt,
        node.take(FromParent::JoinAck { term: 1 }, 2000),
        Outcome::Stale,
    );
    expect(
        &rt,
        node.take(
            FromParent::JoinConfirm {
                term: 1,
                start: 1,
                slot: 0,
            },
            2000,
        ),
        Outcome::Stale,
    );
    expect(
        &rt,
        node.take(FromParent::LeaveConfirm { term: 1 }, 2000),
        Outcome::Stale,
    );
    assert_eq!(rt; node.heard, 1000);
    let heard = node.take(FromParent::Heartbeat { clock: 9 }, 2000);
    assert_eq!(rt; heard.response, Some(Response { term: 1, clock: 9 }));
    assert_eq!(rt; node.heard, 2000);
    expect(
        &rt,
        node.take(FromParent::Eject { term: 2 }, 3000),
        Outcome::Stale,
    );
    expect(
        &rt,
        node.take(FromParent::Eject { term: 1 }, 3000),
        Outcome::Taken,
    );
    assert_eq!(rt;
        (node.standing, node.start, node.heard),
        (Standing::Outside, 10, 2000)
    );
    assert!(rt; !node.kind.table.any_live());
    Ok(())
}

// Ejected, it joins again at a lower start; what is left of the first time finds it changed.
#[test]
fn rejoins(rt: HostRuntime) -> Result<(), Fail> {
    let mut node = joined(&rt, rt.alloc())?;
    let mut out = [0u8; 20];
    expect(
        &rt,
        node.take(FromParent::Eject { term: 1 }, 2000),
        Outcome::Taken,
    );
    assert_eq!(rt; node.join(&mut out), Ok(20));
    expect(
        &rt,
        node.take(
            FromParent::JoinConfirm {
                term: 1,
                start: 10,
                slot: 3,
            },
            3000,
        ),
        Outcome::Stale,
    );
    expect(
        &rt,
        node.take(
            FromParent::JoinConfirm {
                term: 2,
                start: 4,
                slot: 3,
            },
            3000,
        ),
        Outcome::Taken,
    );
    expect(
        &rt,
        node.take(FromParent::Eject { term: 1 }, 3000),
        Outcome::Stale,
    );
    assert_eq!(rt;
        (node.standing, node.term, node.kind.low),
        (Standing::Joined, 2, 4)
    );
    Ok(())
}
