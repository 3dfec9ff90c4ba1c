// The types of packets, by the numbers that stand in byte 1. They are constants and no enum: a reader that first made an enum
// of the number took an eighth longer for a payload, and missed the bar for speed.
pub(crate) const DATA: u8 = 1;

pub(crate) const RETRANSMISSION: u8 = 2;

pub(crate) const HACK: u8 = 3;

pub(crate) const JOIN_STREAM: u8 = 4;

pub(crate) const JOIN_ACK: u8 = 5;

pub(crate) const JOIN_CONFIRM: u8 = 6;

pub(crate) const LEAVE_STREAM: u8 = 7;

pub(crate) const HEARTBEAT: u8 = 8;

pub(crate) const NULL_DATA: u8 = 9;

pub(crate) const EJECT: u8 = 10;

pub(crate) const EOS: u8 = 11;

pub(crate) const HEARTBEAT_RESPONSE: u8 = 12;

pub(crate) const LEAVE_CONFIRM: u8 = 13;
