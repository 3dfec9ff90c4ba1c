// The sender's part of the protocol's worked exchange, byte by byte: sender 100 (0064), top 200 (00C8).
use crate::common::TAKEN;
use address::Address;
use memory::journal::Journal;
use sender::{Open, Sender};
use std::process::Abort;
use std::test::Fail;
use store::{MadeOver, Store};
use wire::TreeId;

const ADDRESS: Address = Address {
    tree: TreeId([0x0a, 0x0b, 0x0c, 0x0d, 0x0e, 0x0f]),
    stream: 40000,
    number: 100,
};

const SECOND_DATA: [u8; 24] = [
    0x20, 1, 0x0a, 0x0b, 0x0c, 0x0d, 0x0e, 0x0f, 0x9c, 0x40, 0, 0x64, 0, 0, 0, 0, 0, 0, 0, 2, 0, 2,
    0x42, 0x32,
];

// Serial 1: LSN 1, HSN 2, word A0000000, so 1 is missing.
const FIRST_REPORT: [u8; 42] = [
    0x20, 3, 0x0a, 0x0b, 0x0c, 0x0d, 0x0e, 0x0f, 0x9c, 0x40, 0, 0xc8, 0, 0x64, 0, 0, 0, 0, 0, 1, 0,
    0, 0, 1, 0, 0, 0, 1, 0, 0, 0, 2, 0, 0, 0, 0, 0, 1, 0xa0, 0, 0, 0,
];

// Serial 2: LSN 3, HSN 2.
const SECOND_REPORT: [u8; 38] = [
    0x20, 3, 0x0a, 0x0b, 0x0c, 0x0d, 0x0e, 0x0f, 0x9c, 0x40, 0, 0xc8, 0, 0x64, 0, 0, 0, 0, 0, 1, 0,
    0, 0, 2, 0, 0, 0, 3, 0, 0, 0, 2, 0, 0, 0, 2, 0, 0,
];

const LAST_WORD: [u8; 20] = [
    0x20, 11, 0x0a, 0x0b, 0x0c, 0x0d, 0x0e, 0x0f, 0x9c, 0x40, 0, 0x64, 0, 0, 0, 0, 0, 0, 0, 2,
];

fn offer_two<Q: Store>(rt: &impl Abort, sender: &mut Open<Q>) {
    let mut data = [0u8; 24];
    assert_eq!(rt; sender.offer(&[0x41, 0x31], &mut data), Ok(24));
    assert_eq!(rt; sender.offer(&[0x42, 0x32], &mut data), Ok(24));
    assert_eq!(rt; data, SECOND_DATA);
}

#[test]
fn as_in_the_protocol(rt: HostRuntime) -> Result<(), Fail> {
    let mut sender = Sender::new(ADDRESS, 200, Journal::new(vec![in rt.alloc(); 0u8; 5180]?));
    offer_two(&rt, &mut sender);
    let mut reply = [0u8; 26];
    assert_eq!(rt; sender.deliver(&FIRST_REPORT, &mut reply), TAKEN);
    assert_eq!(rt; sender.released(), 0);
    assert!(rt; sender.wanted().wants(1));
    assert!(rt; !sender.wanted().wants(2));
    assert_eq!(rt; sender.deliver(&SECOND_REPORT, &mut reply), TAKEN);
    assert_eq!(rt; sender.released(), 2);
    assert!(rt; !sender.wanted().wants(1));
    let sender = sender.end();
    let mut end = [0u8; 20];
    assert_eq!(rt; sender.announce(&mut end), Ok(20));
    assert_eq!(rt; end, LAST_WORD);
    assert!(rt; !sender.into_queue().has(2));
    Ok(())
}
