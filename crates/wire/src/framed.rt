// Bytes whose header, type and length are those of a packet, and what they mean.
ghost use Rattle.std.specs.Prelude.{◌≡◌, ◌≢◌, ◌≤◌, ◌==◌, false, length};
ghost use Rattle.wire.specs.Plain.{plain_body, plain_body_answer, plain_answer};
ghost use Rattle.wire.specs.Ranges.{body_in_range};
ghost use Rattle.wire.specs.Decoding.{header_wrong, type_wrong, type_at, expected_length, body_at, ranged_body, ranged_packet};

use crate::fields::{rest_from, u16_at, u32_at};
use crate::packet::{Body, Message, Packet, TreeId};
use crate::packet_type::{
    DATA, EJECT, EOS, HACK, HEARTBEAT, HEARTBEAT_RESPONSE, JOIN_ACK, JOIN_CONFIRM, JOIN_STREAM,
    LEAVE_CONFIRM, LEAVE_STREAM, NULL_DATA, RETRANSMISSION,
};
use crate::ranges::{check_header, payload_in_range};
use crate::reading_hack::hack_at;
use answer::Refusal;

#[derive(Clone, Copy)]
pub(crate) struct Framed<'a> {
    pub(crate) bytes: &'a [u8],
    ghost header: { 16 ≤ length bytes.now },
    ghost typed: { type_wrong bytes.now ≡ false },
    ghost long: { length bytes.now ≡ expected_length bytes.now },
}

pub(crate) fn header_wrong(bytes: &[u8]) -> bool
    requires { 16 ≤ length bytes.now }
    ensures { result ≡ header_wrong bytes.now }
{
    bytes[0] != 32 || bytes[14] != 0 || bytes[15] != 0
}

pub(crate) fn type_wrong(bytes: &[u8]) -> bool
    requires { 16 ≤ length bytes.now }
    ensures { result ≡ type_wrong bytes.now }
{
    bytes[1] < DATA || bytes[1] > LEAVE_CONFIRM
}

// Whether the length is the one that the type and its counts ask for.
pub(crate) fn length_fits(bytes: &[u8]) -> bool
    requires header { 16 ≤ length bytes.now }
    requires typed { type_wrong bytes.now ≡ false }
    ensures { result ≡ (length bytes.now == expected_length bytes.now) }
{
    let len = bytes.len();
    match bytes[1] {
        DATA | RETRANSMISSION => len >= 22 && len == 22 + u16_at(bytes, 20) as usize,
        HACK => len >= 38 && len == 38 + 4 * u16_at(bytes, 36) as usize,
        JOIN_CONFIRM => len == 26,
        HEARTBEAT_RESPONSE => len == 24,
        _ => len == 20,
    }
}

impl<'a> Framed<'a> {
    // Whether the fields of any type but a HACK lie in their ranges: on the numbers, before a body is made. One list of the
    // types, with each body made beside its tests, missed the bar for speed: bodies were then put together from pieces.
    fn simple_in_range(self) -> bool
        requires { type_at self.bytes.now ≢ 3 }
        ensures { result ≡ body_in_range (body_at self.entry.bytes.now) }
    {
        let bytes = self.bytes;
        let first = u32_at(bytes, 16);
        match bytes[1] {
            DATA => payload_in_range(first, rest_from(bytes, 22)),
            RETRANSMISSION => payload_in_range(first, rest_from(bytes, 22)),
            JOIN_STREAM => first > 0,
            JOIN_ACK => first > 0,
            JOIN_CONFIRM => first > 0 && u32_at(bytes, 20) > 0 && u16_at(bytes, 24) <= 15,
            LEAVE_STREAM => first > 0,
            HEARTBEAT => true,
            NULL_DATA => first < u32::MAX,
            EJECT => first > 0,
            EOS => first < u32::MAX,
            HEARTBEAT_RESPONSE => first > 0,
            _ => first > 0,
        }
    }

    // The body of any type but a HACK.
    fn simple_body(self) -> Body<&'a [u8]>
        requires { type_at self.bytes.now ≢ 3 }
        ensures { plain_body result ≡ body_at self.entry.bytes.now }
    {
        let bytes = self.bytes;
        let first = u32_at(bytes, 16);
        match bytes[1] {
            DATA => Body::Data {
                number: first,
                payload: rest_from(bytes, 22),
            },
            RETRANSMISSION => Body::Retransmission {
                number: first,
                payload: rest_from(bytes, 22),
            },
            JOIN_STREAM => Body::JoinStream { term: first },
            JOIN_ACK => Body::JoinAck { term: first },
            JOIN_CONFIRM => Body::JoinConfirm {
                term: first,
                start: u32_at(bytes, 20),
                slot: u16_at(bytes, 24),
            },
            LEAVE_STREAM => Body::LeaveStream { term: first },
            HEARTBEAT => Body::Heartbeat { clock: first },
            NULL_DATA => Body::NullData { highest: first },
            EJECT => Body::Eject { term: first },
            EOS => Body::Eos { highest: first },
            HEARTBEAT_RESPONSE => Body::HeartbeatResponse {
                term: first,
                clock: u32_at(bytes, 20),
            },
            _ => Body::LeaveConfirm { term: first },
        }
    }

    // The body, unless a field is outside its range.
    fn body(self) -> Result<Body<&'a [u8]>, Refusal>
        ensures { plain_body_answer result ≡ ranged_body self.entry.bytes.now }
    {
        if self.bytes[1] == HACK {
            return Ok(Body::Hack(hack_at(self.bytes)?));
        }
        if self.simple_in_range() {
            Ok(self.simple_body())
        } else {
            Err(Refusal::OutOfRange)
        }
    }

    // The packet, unless a field is outside its range.
    pub(crate) fn packet(self) -> Result<Packet<'a>, Refusal>
        ensures { plain_answer result ≡ ranged_packet self.entry.bytes.now }
    {
        let bytes = self.bytes;
        let stream = u16_at(bytes, 8);
        let writer = u16_at(bytes, 10);
        check_header(stream, writer)?;
        // Byte by byte: `array_at` would copy the six by way of the stack.
        Ok(Message {
            tree: TreeId([bytes[2], bytes[3], bytes[4], bytes[5], bytes[6], bytes[7]]),
            stream,
            writer,
            addressee: u16_at(bytes, 12),
            body: self.body()?,
        })
    }
}
