// Offers and announcements.
use crate::common::{SENDER, TAKEN, TOP, bring, offer, offer_some, open, report};
use address::Address;
use answer::Refusal;
use memory::journal::Journal;
use memory::slots::SlotStore;
use sender::check as check_making;
use std::alloc::Global;
use std::process::Abort;
use std::test::Fail;
use store::{MadeOver, Store};
use wire::Body;

#[test]
fn makings(rt: HostRuntime) {
    assert_eq!(rt; check_making(SENDER, TOP), Ok(()));
    assert_eq!(rt; check_making(SENDER, 0), Err(Refusal::OutOfRange));
    assert_eq!(rt; check_making(SENDER, 100), Err(Refusal::OutOfRange));
    let nobody = Address {
        number: 0,
        ..SENDER
    };
    assert_eq!(rt; check_making(nobody, TOP), Err(Refusal::OutOfRange));
    let low = Address {
        stream: 32767,
        ..SENDER
    };
    assert_eq!(rt; check_making(low, TOP), Err(Refusal::OutOfRange));
}

// 256 on their way, then none more until a report releases one. `kind` names the store in messages, since a type has no name.
fn fills_the_window<Q: MadeOver + Drop>(
    rt: &impl Abort,
    kind: &str,
    heap: Global,
) -> Result<(), Fail> {
    let mut sender = open::<Q>(heap, 133126)?;
    offer_some(rt, &mut sender, 256);
    assert_eq!(rt;
        offer(rt, &mut sender, &[7], 23),
        Err(Refusal::WindowFull),
        "{kind}"
    );
    assert_eq!(rt; sender.highest(), 256, "{kind}");
    let held = Body::Hack(report(1, 2, 1, 0));
    assert_eq!(rt; bring(rt, &mut sender, TOP, 100, held)?, TAKEN, "{kind}");
    assert_eq!(rt; sender.released(), 1, "{kind}");
    assert_eq!(rt; offer(rt, &mut sender, &[7], 23), Ok(23), "{kind}");
    assert_eq!(rt;
        offer(rt, &mut sender, &[7], 23),
        Err(Refusal::WindowFull),
        "{kind}"
    );
    assert_eq!(rt; sender.highest(), 257, "{kind}");
    Ok(())
}

#[test]
fn the_window(rt: HostRuntime) -> Result<(), Fail> {
    fills_the_window::<Journal>(&rt, "journal", rt.alloc())?;
    fills_the_window::<SlotStore>(&rt, "slot store", rt.alloc())
}

// A queue with room for one: a bad payload, a short buffer and a full queue, each before the next.
fn refuses_in_order<Q: MadeOver + Drop>(
    rt: &impl Abort,
    kind: &str,
    heap: Global,
) -> Result<(), Fail> {
    let mut sender = open::<Q>(heap, 518)?;
    assert_eq!(rt;
        offer(rt, &mut sender, &[], 0),
        Err(Refusal::BadPayload),
        "{kind}"
    );
    assert_eq!(rt;
        offer(rt, &mut sender, &[7u8; 513], 0),
        Err(Refusal::BadPayload),
        "{kind}"
    );
    assert_eq!(rt;
        offer(rt, &mut sender, &[7, 8], 23),
        Err(Refusal::ShortOutput),
        "{kind}"
    );
    assert_eq!(rt; sender.highest(), 0, "{kind}");
    assert_eq!(rt; offer(rt, &mut sender, &[7, 8], 24), Ok(24), "{kind}");
    assert_eq!(rt;
        offer(rt, &mut sender, &[5], 22),
        Err(Refusal::ShortOutput),
        "{kind}"
    );
    assert_eq!(rt;
        offer(rt, &mut sender, &[5], 23),
        Err(Refusal::Full),
        "{kind}"
    );
    assert_eq!(rt; sender.highest(), 1, "{kind}");
    let mut queue = sender.into_queue();
    assert!(rt; queue.has(1), "{kind}");
    assert!(rt; !queue.has(2), "{kind}");
    Ok(())
}

#[test]
fn the_earlier_refusal_wins(rt: HostRuntime) -> Result<(), Fail> {
    refuses_in_order::<Journal>(&rt, "journal", rt.alloc())?;
    refuses_in_order::<SlotStore>(&rt, "slot store", rt.alloc())
}

// A bad payload comes before a full window, and that before a short buffer.
#[test]
fn a_full_window(rt: HostRuntime) -> Result<(), Fail> {
    let mut sender = open::<Journal>(rt.alloc(), 133126)?;
    offer_some(&rt, &mut sender, 256);
    assert_eq!(rt; offer(&rt, &mut sender, &[], 0), Err(Refusal::BadPayload));
    assert_eq!(rt; offer(&rt, &mut sender, &[7], 0), Err(Refusal::WindowFull));
    Ok(())
}

// NullData first, EOS after the end.
fn announces<Q: MadeOver + Drop>(rt: &impl Abort, kind: &str, heap: Global) -> Result<(), Fail> {
    let mut sender = open::<Q>(heap, 5180)?;
    let mut out = [9u8; 21];
    assert_eq!(rt;
        sender.announce(&mut out[0..19]),
        Err(Refusal::ShortOutput),
        "{kind}"
    );
    assert_eq!(rt; out, [9u8; 21], "{kind}");
    assert_eq!(rt; sender.announce(&mut out), Ok(20), "{kind}");
    // Byte 1 is the packet's type, by the numbers of docs/PROTOCOL.md: these cases look at the bytes.
    assert_eq!(rt; [out[1], out[19], out[20]], [9u8, 0, 9], "{kind}");
    offer_some(rt, &mut sender, 2);
    assert_eq!(rt; sender.announce(&mut out), Ok(20), "{kind}");
    assert_eq!(rt; [out[1], out[19]], [9u8, 2], "{kind}");
    let sender = sender.end();
    assert_eq!(rt; sender.announce(&mut out), Ok(20), "{kind}");
    assert_eq!(rt; [out[1], out[19]], [11u8, 2], "{kind}");
    assert!(rt; sender.into_queue().has(2), "{kind}");
    Ok(())
}

#[test]
fn the_end(rt: HostRuntime) -> Result<(), Fail> {
    announces::<Journal>(&rt, "journal", rt.alloc())?;
    announces::<SlotStore>(&rt, "slot store", rt.alloc())
}
