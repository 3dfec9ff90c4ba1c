// Bytes that are no packet, and the refusal that they meet; none where they are one.
use crate::vectors::{
    DATA, EJECT, EOS, HACK, HEARTBEAT, HEARTBEAT_RESPONSE, JOIN_ACK, JOIN_CONFIRM, JOIN_STREAM,
    LEAVE_CONFIRM, LEAVE_STREAM, NULL_DATA, RETRANSMISSION, copy_front,
};
use answer::Refusal;
use answer::Refusal::{
    BadHeader, LengthMismatch, NotTaken, OtherAddressee, OtherStream, OutOfRange, ShortOutput,
    ShortPacket, UnknownType, WrongStanding,
};
use wire::read;

fn change(bytes: &mut [u8], changes: &[(usize, u8)]) {
    for (at, byte) in changes {
        if let Some(place) = bytes.get_mut(*at) {
            *place = *byte;
        }
    }
}

// A packet, cut or filled with zeros to `len` bytes, with the bytes at some places changed.
fn answer(packet: &[u8], len: usize, changes: &[(usize, u8)]) -> Option<Refusal> {
    let mut bytes = [0u8; 600];
    copy_front(packet, &mut bytes);
    change(&mut bytes, changes);
    read(&bytes[..len.min(600)]).err()
}

// Packet, length, answer: a length that fits no body, and those beside the one that fits.
const LENGTHS: [(&[u8], usize, Option<Refusal>); 37] = [
    (JOIN_STREAM, 0, Some(ShortPacket)),
    (JOIN_STREAM, 15, Some(ShortPacket)),
    (JOIN_STREAM, 16, Some(LengthMismatch)),
    (DATA, 16, Some(LengthMismatch)),
    (DATA, 21, Some(LengthMismatch)),
    (DATA, 24, Some(LengthMismatch)),
    (DATA, 25, None),
    (DATA, 26, Some(LengthMismatch)),
    (RETRANSMISSION, 22, Some(LengthMismatch)),
    (RETRANSMISSION, 24, Some(LengthMismatch)),
    (HACK, 16, Some(LengthMismatch)),
    (HACK, 37, Some(LengthMismatch)),
    (HACK, 38, Some(LengthMismatch)),
    (HACK, 45, Some(LengthMismatch)),
    (HACK, 46, None),
    (HACK, 47, Some(LengthMismatch)),
    (HACK, 50, Some(LengthMismatch)),
    (JOIN_STREAM, 19, Some(LengthMismatch)),
    (JOIN_STREAM, 21, Some(LengthMismatch)),
    (JOIN_ACK, 19, Some(LengthMismatch)),
    (JOIN_ACK, 21, Some(LengthMismatch)),
    (JOIN_CONFIRM, 25, Some(LengthMismatch)),
    (JOIN_CONFIRM, 27, Some(LengthMismatch)),
    (LEAVE_STREAM, 19, Some(LengthMismatch)),
    (LEAVE_STREAM, 21, Some(LengthMismatch)),
    (HEARTBEAT, 19, Some(LengthMismatch)),
    (HEARTBEAT, 21, Some(LengthMismatch)),
    (NULL_DATA, 19, Some(LengthMismatch)),
    (NULL_DATA, 21, Some(LengthMismatch)),
    (EJECT, 19, Some(LengthMismatch)),
    (EJECT, 21, Some(LengthMismatch)),
    (EOS, 19, Some(LengthMismatch)),
    (EOS, 21, Some(LengthMismatch)),
    (HEARTBEAT_RESPONSE, 23, Some(LengthMismatch)),
    (HEARTBEAT_RESPONSE, 25, Some(LengthMismatch)),
    (LEAVE_CONFIRM, 19, Some(LengthMismatch)),
    (LEAVE_CONFIRM, 21, Some(LengthMismatch)),
];

#[test]
fn lengths(rt: HostRuntime) {
    for (packet, len, expected) in LENGTHS {
        assert_eq!(rt; answer(packet, len, &[]), expected);
    }
}

// Packet, place, byte, answer, at the packet's own length.
const BYTES: [(&[u8], usize, u8, Option<Refusal>); 24] = [
    (JOIN_STREAM, 0, 0, Some(BadHeader)),
    (JOIN_STREAM, 0, 33, Some(BadHeader)),
    (JOIN_STREAM, 0, 34, Some(BadHeader)),
    (JOIN_STREAM, 0, 48, Some(BadHeader)),
    (JOIN_STREAM, 14, 1, Some(BadHeader)),
    (JOIN_STREAM, 15, 255, Some(BadHeader)),
    (JOIN_STREAM, 1, 0, Some(UnknownType)),
    (JOIN_STREAM, 1, 14, Some(UnknownType)),
    (JOIN_STREAM, 1, 255, Some(UnknownType)),
    (JOIN_STREAM, 8, 127, Some(OutOfRange)),
    (JOIN_STREAM, 8, 255, None),
    (JOIN_STREAM, 9, 0, None),
    (JOIN_STREAM, 11, 0, Some(OutOfRange)),
    (JOIN_STREAM, 11, 1, None),
    (JOIN_STREAM, 13, 0, None),
    (JOIN_STREAM, 2, 255, None),
    (JOIN_CONFIRM, 25, 16, Some(OutOfRange)),
    (JOIN_CONFIRM, 25, 0, None),
    (JOIN_CONFIRM, 24, 1, Some(OutOfRange)),
    (HACK, 39, 254, Some(OutOfRange)),
    (HACK, 38, 0, None),
    (HACK, 37, 3, Some(LengthMismatch)),
    (DATA, 21, 4, Some(LengthMismatch)),
    (DATA, 21, 0, Some(LengthMismatch)),
];

#[test]
fn single_bytes(rt: HostRuntime) {
    for (packet, at, byte, expected) in BYTES {
        assert_eq!(rt; answer(packet, packet.len(), &[(at, byte)]), expected);
    }
}

// Packet, place, field, answer, at the packet's own length.
const FIELDS: [(&[u8], usize, u32, Option<Refusal>); 37] = [
    (DATA, 16, 0, Some(OutOfRange)),
    (DATA, 16, 1, None),
    (DATA, 16, 4_294_967_294, None),
    (DATA, 16, 4_294_967_295, Some(OutOfRange)),
    (RETRANSMISSION, 16, 0, Some(OutOfRange)),
    (RETRANSMISSION, 16, 4_294_967_295, Some(OutOfRange)),
    (HACK, 16, 0, Some(OutOfRange)),
    (HACK, 16, 4_294_967_295, None),
    (HACK, 20, 0, Some(OutOfRange)),
    (HACK, 20, 4_294_967_295, None),
    (HACK, 24, 0, Some(OutOfRange)),
    (HACK, 24, 41, Some(OutOfRange)),
    (HACK, 28, 4_294_967_295, Some(OutOfRange)),
    (HACK, 28, 38, Some(OutOfRange)),
    (HACK, 28, 39, Some(OutOfRange)),
    (HACK, 28, 95, None),
    (HACK, 28, 96, Some(OutOfRange)),
    (HACK, 28, 64, None),
    (HACK, 28, 63, Some(OutOfRange)),
    (HACK, 32, 38, Some(OutOfRange)),
    (HACK, 32, 40, Some(OutOfRange)),
    (JOIN_STREAM, 16, 0, Some(OutOfRange)),
    (JOIN_STREAM, 16, 4_294_967_295, None),
    (JOIN_ACK, 16, 0, Some(OutOfRange)),
    (JOIN_CONFIRM, 16, 0, Some(OutOfRange)),
    (JOIN_CONFIRM, 20, 0, Some(OutOfRange)),
    (JOIN_CONFIRM, 20, 4_294_967_295, None),
    (LEAVE_STREAM, 16, 0, Some(OutOfRange)),
    (HEARTBEAT, 16, 0, None),
    (HEARTBEAT, 16, 4_294_967_295, None),
    (NULL_DATA, 16, 4_294_967_294, None),
    (NULL_DATA, 16, 4_294_967_295, Some(OutOfRange)),
    (EJECT, 16, 0, Some(OutOfRange)),
    (EOS, 16, 0, None),
    (EOS, 16, 4_294_967_295, Some(OutOfRange)),
    (HEARTBEAT_RESPONSE, 16, 0, Some(OutOfRange)),
    (LEAVE_CONFIRM, 16, 0, Some(OutOfRange)),
];

#[test]
fn fields(rt: HostRuntime) {
    for (packet, at, field, expected) in FIELDS {
        let [a, b, c, d] = field.to_be_bytes();
        assert!(rt; at < 100);
        let changes = [(at, a), (at + 1, b), (at + 2, c), (at + 3, d)];
        assert_eq!(rt; answer(packet, packet.len(), &changes), expected);
    }
}

// Packet, length, and two bytes changed: a count that fits the length is out of range, and of two faults the earlier is told.
const PAIRS: [(&[u8], usize, (usize, u8), (usize, u8), Option<Refusal>); 14] = [
    (DATA, 22, (20, 0), (21, 0), Some(OutOfRange)),
    (DATA, 534, (20, 2), (21, 0), None),
    (DATA, 535, (20, 2), (21, 1), Some(OutOfRange)),
    (HACK, 50, (36, 0), (37, 3), Some(OutOfRange)),
    (HACK, 42, (36, 0), (37, 1), Some(OutOfRange)),
    (HACK, 38, (36, 0), (37, 0), Some(OutOfRange)),
    (JOIN_STREAM, 15, (0, 0), (1, 0), Some(ShortPacket)),
    (JOIN_STREAM, 20, (0, 0), (1, 0), Some(BadHeader)),
    (JOIN_STREAM, 19, (15, 1), (8, 0), Some(BadHeader)),
    (JOIN_STREAM, 19, (1, 14), (8, 0), Some(UnknownType)),
    (JOIN_STREAM, 19, (8, 0), (19, 0), Some(LengthMismatch)),
    (JOIN_CONFIRM, 27, (25, 16), (8, 0), Some(LengthMismatch)),
    (DATA, 24, (11, 0), (19, 0), Some(LengthMismatch)),
    (JOIN_STREAM, 20, (11, 0), (19, 0), Some(OutOfRange)),
];

#[test]
fn pairs(rt: HostRuntime) {
    for (packet, len, first, second, expected) in PAIRS {
        assert_eq!(rt; answer(packet, len, &[first, second]), expected);
    }
}

// LSN, HSN, word count, length, answer: a HACK with no flag set.
const HACKS: [(u32, u32, u16, usize, Option<Refusal>); 11] = [
    (31, 286, 9, 74, None),
    (31, 287, 9, 74, Some(OutOfRange)),
    (40, 295, 9, 74, None),
    (40, 296, 9, 74, Some(OutOfRange)),
    (40, 72, 9, 74, Some(OutOfRange)),
    (40, 72, 10, 78, Some(OutOfRange)),
    (40, 72, 10, 74, Some(LengthMismatch)),
    (1, 0, 0, 38, None),
    (u32::MAX, u32::MAX - 1, 0, 38, None),
    (u32::MAX - 1, u32::MAX - 1, 1, 42, None),
    (u32::MAX - 1, u32::MAX, 1, 42, Some(OutOfRange)),
];

fn put_fields(bytes: &mut [u8; 78], lsn: u32, hsn: u32, count: u16) {
    bytes[24..28].copy_from_slice(&lsn.to_be_bytes());
    bytes[28..32].copy_from_slice(&hsn.to_be_bytes());
    bytes[32..36].copy_from_slice(&lsn.saturating_sub(1).to_be_bytes());
    bytes[36..38].copy_from_slice(&count.to_be_bytes());
}

// A HACK of so many bytes whose words are 0.
fn hack_answer(lsn: u32, hsn: u32, count: u16, len: usize) -> Option<Refusal> {
    let mut bytes = [0u8; 78];
    copy_front(HACK, &mut bytes[0..38]);
    put_fields(&mut bytes, lsn, hsn, count);
    read(&bytes[0..len.min(78)]).err()
}

#[test]
fn hacks(rt: HostRuntime) {
    for (lsn, hsn, count, len, expected) in HACKS {
        assert_eq!(rt; hack_answer(lsn, hsn, count, len), expected);
    }
}

// The number of each refusal of a packet.
const NUMBERS: [(Refusal, u8); 10] = [
    (ShortPacket, 7),
    (BadHeader, 8),
    (UnknownType, 9),
    (LengthMismatch, 10),
    (OutOfRange, 11),
    (ShortOutput, 12),
    (OtherStream, 13),
    (OtherAddressee, 14),
    (NotTaken, 15),
    (WrongStanding, 16),
];

#[test]
fn numbers_of_refusals(rt: HostRuntime) {
    for (refusal, number) in NUMBERS {
        assert_eq!(rt; refusal.number(), number);
    }
}
