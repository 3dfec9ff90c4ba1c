// Reports of the top, taken and stale, and packets that are refused.
use crate::common::{SENDER, STALE, TAKEN, TOP, bring, offer_some, open, report};
use answer::Refusal;
use memory::journal::Journal;
use memory::slots::SlotStore;
use sender::Open;
use std::alloc::Global;
use std::process::Abort;
use std::test::Fail;
use store::{MadeOver, Store};
use wire::{Body, Hack, Packet, TreeId, write};

// Three offered, 1 released, 2 missing, 3 held, by serial 5.
fn reported<Q: MadeOver + Drop>(rt: &impl Abort, heap: Global) -> Result<Open<Q>, Fail> {
    let mut sender = open::<Q>(heap, 5180)?;
    offer_some(rt, &mut sender, 3);
    let first = Body::Hack(report(5, 2, 3, 0xd000_0000));
    assert_eq!(rt; bring(rt, &mut sender, TOP, 100, first)?, TAKEN);
    Ok(sender)
}

fn check_reported<Q: Store + Drop>(rt: &impl Abort, sender: Open<Q>) {
    assert_eq!(rt; sender.released(), 1);
    let wanted = sender.wanted();
    assert_eq!(rt;
        [1, 2, 3, 4].map(|number| wanted.wants(number)),
        [false, true, false, false]
    );
    let mut queue = sender.into_queue();
    assert_eq!(rt;
        [queue.has(1), queue.has(2), queue.has(3)],
        [false, true, true]
    );
}

// Too old in each of the four ways: the term, the serial, the stable, and an HSN that was never offered. `kind` names the
// store in messages, since a type has no name.
fn old_in_each_way<Q: MadeOver + Drop>(
    rt: &impl Abort,
    kind: &str,
    heap: Global,
) -> Result<(), Fail> {
    let mut sender = reported::<Q>(rt, heap)?;
    let fresh = report(6, 4, 3, 0);
    let other_term = Body::Hack(Hack { term: 2, ..fresh });
    assert_eq!(rt;
        bring(rt, &mut sender, TOP, 0, other_term)?,
        STALE,
        "{kind}"
    );
    let same_serial = Body::Hack(Hack { serial: 5, ..fresh });
    assert_eq!(rt;
        bring(rt, &mut sender, TOP, 0, same_serial)?,
        STALE,
        "{kind}"
    );
    let back = Body::Hack(report(6, 1, 3, 0x8000_0000));
    assert_eq!(rt; bring(rt, &mut sender, TOP, 0, back)?, STALE, "{kind}");
    let ahead = Body::Hack(report(6, 2, 4, 0xd000_0000));
    assert_eq!(rt; bring(rt, &mut sender, TOP, 0, ahead)?, STALE, "{kind}");
    check_reported(rt, sender);
    Ok(())
}

#[test]
fn stale_reports(rt: HostRuntime) -> Result<(), Fail> {
    old_in_each_way::<Journal>(&rt, "journal", rt.alloc())?;
    old_in_each_way::<SlotStore>(&rt, "slot store", rt.alloc())
}

// A report with nothing missing leaves nothing wanted, at an ended stream too.
fn all_held<Q: MadeOver + Drop>(rt: &impl Abort, kind: &str, heap: Global) -> Result<(), Fail> {
    let mut sender = reported::<Q>(rt, heap)?.end();
    assert!(rt; sender.wanted().wants(2), "{kind}");
    let all = Body::Hack(report(6, 4, 3, 0));
    assert_eq!(rt; bring(rt, &mut sender, TOP, 0, all)?, TAKEN, "{kind}");
    assert_eq!(rt; sender.released(), 3, "{kind}");
    assert!(rt; !sender.wanted().wants(2), "{kind}");
    assert_eq!(rt; bring(rt, &mut sender, TOP, 0, all)?, STALE, "{kind}");
    assert!(rt; !sender.into_queue().has(3), "{kind}");
    Ok(())
}

#[test]
fn nothing_missing(rt: HostRuntime) -> Result<(), Fail> {
    all_held::<Journal>(&rt, "journal", rt.alloc())?;
    all_held::<SlotStore>(&rt, "slot store", rt.alloc())
}

// Too short, another stream, another node, no report of the top and a short buffer, each before the next.
#[test]
fn refused_packets(rt: HostRuntime) -> Result<(), Fail> {
    let mut sender = reported::<Journal>(&rt, rt.alloc())?;
    assert_eq!(rt;
        sender.deliver(&[1, 2, 3], &mut []),
        Err(Refusal::ShortPacket)
    );
    let fresh = Body::Hack(report(6, 4, 3, 0));
    let mut bytes = [0u8; 38];
    let other_tree = Packet::bare(TreeId([1, 2, 3, 4, 5, 7]), 40000, 201, 101, fresh);
    assert_eq!(rt; write(&other_tree, &mut bytes), Ok(38));
    assert_eq!(rt; sender.deliver(&bytes, &mut []), Err(Refusal::OtherStream));
    let other_stream = Packet::bare(SENDER.tree, 40001, 201, 101, fresh);
    assert_eq!(rt; write(&other_stream, &mut bytes), Ok(38));
    assert_eq!(rt; sender.deliver(&bytes, &mut []), Err(Refusal::OtherStream));
    let other_node = Packet::bare(SENDER.tree, 40000, 201, 101, fresh);
    assert_eq!(rt; write(&other_node, &mut bytes), Ok(38));
    assert_eq!(rt;
        sender.deliver(&bytes, &mut []),
        Err(Refusal::OtherAddressee)
    );
    let other_writer = Packet::bare(SENDER.tree, 40000, 201, 100, fresh);
    assert_eq!(rt; write(&other_writer, &mut bytes), Ok(38));
    assert_eq!(rt; sender.deliver(&bytes, &mut []), Err(Refusal::NotTaken));
    assert_eq!(rt;
        bring(&rt, &mut sender, TOP, 100, Body::Heartbeat { clock: 1 })?,
        Err(Refusal::NotTaken)
    );
    let good = Packet::bare(SENDER.tree, 40000, TOP, 100, fresh);
    assert_eq!(rt; write(&good, &mut bytes), Ok(38));
    assert_eq!(rt;
        sender.deliver(&bytes, &mut [0u8; 25]),
        Err(Refusal::ShortOutput)
    );
    check_reported(&rt, sender);
    Ok(())
}
