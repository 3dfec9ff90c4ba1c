// The flags of a HACK: which numbers it holds, how many words it has, which positions a reader ignores.
use crate::vectors::{HACK, copy_front};
use answer::Refusal;
use answer::Refusal::OutOfRange;
use std::test::Fail;
use wire::{Body, Hack, Packet, TreeId, read, write};

fn report(lsn: u32, hsn: u32) -> Packet<'static> {
    let hack = Hack {
        term: u32::MAX,
        serial: u32::MAX,
        lsn,
        hsn,
        flags: [0; 9],
    };
    Packet::bare(TreeId([0; 6]), u16::MAX, u16::MAX, 0, Body::Hack(hack))
}

// How many bytes a HACK takes.
fn size(lsn: u32, hsn: u32) -> Result<usize, Refusal> {
    write(&report(lsn, hsn), &mut [0u8; 74])
}

fn hack_of(packet: &Packet<'_>) -> Result<Hack, Refusal> {
    match packet.body {
        Body::Hack(hack) => Ok(hack),
        _ => Err(Refusal::UnknownType),
    }
}

#[test]
fn missing_in_order(rt: HostRuntime) -> Result<(), Fail> {
    let hack = hack_of(&read(HACK)?)?;
    let mut numbers = [9u32; 7];
    assert_eq!(rt; hack.missing(&mut numbers)?, 6);
    assert!(rt; numbers == [40, 47, 50, 54, 55, 56, 9]);
    assert_eq!(rt; hack.missing(&mut numbers[..5]), Err(Refusal::ShortOutput));
    assert!(rt; hack.holds(39) && !hack.holds(40) && hack.holds(41));
    assert!(rt; hack.holds(72) && !hack.holds(73) && !hack.holds(u32::MAX));
    Ok(())
}

// LSN, HSN, and the bytes of the packet or the refusal.
const SIZES: [(u32, u32, Result<usize, Refusal>); 13] = [
    (40, 39, Ok(38)),
    (40, 72, Ok(46)),
    (1, 0, Ok(38)),
    (1, 256, Ok(74)),
    (31, 286, Ok(74)),
    (31, 287, Err(OutOfRange)),
    (32, 287, Ok(70)),
    (40, 38, Err(OutOfRange)),
    (0, 0, Err(OutOfRange)),
    (u32::MAX, u32::MAX - 1, Ok(38)),
    (u32::MAX - 1, u32::MAX - 1, Ok(42)),
    (u32::MAX, u32::MAX, Err(OutOfRange)),
    (u32::MAX - 1, u32::MAX, Err(OutOfRange)),
];

#[test]
fn words_and_ranges(rt: HostRuntime) {
    for (lsn, hsn, expected) in SIZES {
        assert_eq!(rt; size(lsn, hsn), expected);
    }
}

#[test]
fn largest_lsn_reads_back(rt: HostRuntime) -> Result<(), Fail> {
    let mut out = [0u8; 38];
    assert_eq!(rt; write(&report(u32::MAX, u32::MAX - 1), &mut out)?, 38);
    let hack = hack_of(&read(&out)?)?;
    assert!(rt; hack.lsn == u32::MAX && hack.hsn == u32::MAX - 1);
    assert_eq!(rt; hack.missing(&mut [])?, 0);
    assert!(rt; hack.holds(u32::MAX - 1) && !hack.holds(u32::MAX));
    Ok(())
}

// Positions before LSN and after HSN may hold anything; they are written as 1 and 0.
#[test]
fn ignored_positions(rt: HostRuntime) -> Result<(), Fail> {
    let mut bytes = [0u8; 46];
    copy_front(HACK, &mut bytes);
    bytes[38] = 0;
    bytes[43] = 0xff;
    bytes[45] = 0xff;
    let mut out = [0u8; 46];
    assert_eq!(rt; write(&read(&bytes)?, &mut out)?, 46);
    assert!(rt; &out[..] == HACK);
    Ok(())
}
