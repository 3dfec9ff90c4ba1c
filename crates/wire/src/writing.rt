// A packet as bytes.
ghost use Rattle.std.specs.Prelude.{◌≡◌, ◌+◌, ◌≤◌, true, ◌++◌, length, take, if◌then◌else◌, IfOk, Ok, Err};
ghost use Rattle.answer.specs.declared.Refusal.TheVariants.{OutOfRange};
ghost use Rattle.wire.specs.Fields.{short_bytes, field_bytes, overwrite};
ghost use Rattle.wire.specs.Laws.{HeaderFits, BodyFits, canonical_packet};
ghost use Rattle.wire.specs.Plain.{plain_packet, plain_body};
ghost use Rattle.wire.specs.Ranges.{packet_in_range, body_in_range};
ghost use Rattle.wire.specs.Encoding.{type_of, header_bytes, body_bytes, body_length, payload_bytes, encode, write_answer, buffer_after};
ghost use Rattle.wire.specs.Decoding.{decode};

use crate::fields::put;
use crate::packet::{Body, Packet};
use crate::packet_type::{
    DATA, EJECT, EOS, HACK, HEARTBEAT, HEARTBEAT_RESPONSE, JOIN_ACK, JOIN_CONFIRM, JOIN_STREAM,
    LEAVE_CONFIRM, LEAVE_STREAM, NULL_DATA, RETRANSMISSION,
};
use crate::ranges::{at_least_one, check_header, check_payload, ranged_highest, ranged_slot};
use crate::writing_hack::write_hack;
use answer::Refusal;

// The type of a body.
fn type_of(body: &Body<&[u8]>) -> u8
    ensures { result ≡ type_of (plain_body body.now) }
{
    match body {
        Body::Data { .. } => DATA,
        Body::Retransmission { .. } => RETRANSMISSION,
        Body::Hack(_) => HACK,
        Body::JoinStream { .. } => JOIN_STREAM,
        Body::JoinAck { .. } => JOIN_ACK,
        Body::JoinConfirm { .. } => JOIN_CONFIRM,
        Body::LeaveStream { .. } => LEAVE_STREAM,
        Body::Heartbeat { .. } => HEARTBEAT,
        Body::NullData { .. } => NULL_DATA,
        Body::Eject { .. } => EJECT,
        Body::Eos { .. } => EOS,
        Body::HeartbeatResponse { .. } => HEARTBEAT_RESPONSE,
        Body::LeaveConfirm { .. } => LEAVE_CONFIRM,
    }
}

// The header as an array, so that it is written by one copy.
fn header_bytes(packet: &Packet<'_>) -> [u8; 16]
    ensures is { result ≡ header_bytes (plain_packet packet.now) }
    ensures typed { HeaderFits (plain_packet packet.now) }
{
    let tree = packet.tree.bytes();
    let stream = packet.stream.to_be_bytes();
    let writer = packet.writer.to_be_bytes();
    let addressee = packet.addressee.to_be_bytes();
    [
        32,
        type_of(&packet.body),
        tree[0],
        tree[1],
        tree[2],
        tree[3],
        tree[4],
        tree[5],
        stream[0],
        stream[1],
        writer[0],
        writer[1],
        addressee[0],
        addressee[1],
        0,
        0,
    ]
}

// How many bytes a body takes, unless a field is outside its range.
fn ranged_length(body: &Body<&[u8]>) -> Result<usize, Refusal>
    ensures is { result ≡ (if body_in_range (plain_body body.now) then Ok (body_length (plain_body body.now)) else Err OutOfRange) }
    ensures bound { IfOk result (λ n. n ≤ 518) }
{
    match body {
        Body::Data { number, payload } | Body::Retransmission { number, payload } => {
            check_payload(*number, payload)?;
            Ok(6 + payload.len())
        }
        Body::Hack(hack) => Ok(22 + 4 * hack.ranged_span()?.word_count() as usize),
        Body::JoinConfirm { term, start, slot } => {
            at_least_one(*term)?;
            at_least_one(*start)?;
            ranged_slot(*slot)?;
            Ok(10)
        }
        Body::HeartbeatResponse { term, .. } => {
            at_least_one(*term)?;
            Ok(8)
        }
        Body::JoinStream { term }
        | Body::JoinAck { term }
        | Body::LeaveStream { term }
        | Body::Eject { term }
        | Body::LeaveConfirm { term } => {
            at_least_one(*term)?;
            Ok(4)
        }
        Body::NullData { highest } | Body::Eos { highest } => {
            ranged_highest(*highest)?;
            Ok(4)
        }
        Body::Heartbeat { .. } => Ok(4),
    }
}

fn write_payload(number: u32, payload: &[u8], out: &mut [u8])
    requires short { length payload.now ≤ 512 }
    requires room { 22 + length payload.now ≤ length out.old }
    ensures { out.new ≡ overwrite 16 (payload_bytes number payload.now) out.old }
{
    put(out, 16, number.to_be_bytes());
    put(out, 20, (payload.len() as u16).to_be_bytes());
    out[22..22 + payload.len()].copy_from_slice(payload);
}

fn write_join_confirm(term: u32, start: u32, slot: u16, out: &mut [u8])
    requires { 26 ≤ length out.old }
    ensures { out.new ≡ overwrite 16 (field_bytes term ++ (field_bytes start ++ short_bytes slot)) out.old }
{
    put(out, 16, term.to_be_bytes());
    put(out, 20, start.to_be_bytes());
    put(out, 24, slot.to_be_bytes());
}

fn write_heartbeat_response(term: u32, clock: u32, out: &mut [u8])
    requires { 24 ≤ length out.old }
    ensures { out.new ≡ overwrite 16 (field_bytes term ++ field_bytes clock) out.old }
{
    put(out, 16, term.to_be_bytes());
    put(out, 20, clock.to_be_bytes());
}

#[tactic(auto, unfolding(crate::specs::Fields::field_bytes))]
fn write_body(body: &Body<&[u8]>, out: &mut [u8])
    requires ranged { body_in_range (plain_body body.now) ≡ true }
    requires room { 16 + body_length (plain_body body.now) ≤ length out.old }
    ensures after { out.new ≡ overwrite 16 (body_bytes (plain_body body.now)) out.old }
    ensures typed { BodyFits (plain_body body.now) }
{
    match body {
        Body::Data { number, payload } | Body::Retransmission { number, payload } => {
            write_payload(*number, payload, out)
        }
        Body::Hack(hack) => write_hack(hack, out),
        Body::JoinConfirm { term, start, slot } => write_join_confirm(*term, *start, *slot, out),
        Body::HeartbeatResponse { term, clock } => write_heartbeat_response(*term, *clock, out),
        Body::JoinStream { term: field }
        | Body::JoinAck { term: field }
        | Body::LeaveStream { term: field }
        | Body::Heartbeat { clock: field }
        | Body::Eject { term: field }
        | Body::LeaveConfirm { term: field }
        | Body::Eos { highest: field }
        | Body::NullData { highest: field } => put(out, 16, field.to_be_bytes()),
    }
}

fn write_header(packet: &Packet<'_>, out: &mut [u8])
    requires { 16 ≤ length out.old }
    ensures after { out.new ≡ overwrite 0 (header_bytes (plain_packet packet.now)) out.old }
    ensures typed { HeaderFits (plain_packet packet.now) }
{
    out[0..16].copy_from_slice(&header_bytes(packet));
}

// What `write` would answer for this packet and a buffer as long as `out`. It writes nothing.
pub fn check_write(packet: &Packet<'_>, out: &[u8]) -> Result<usize, Refusal>
    ensures { result ≡ write_answer (packet_in_range (plain_packet packet.now)) (encode (plain_packet packet.now)) out.now }
{
    check_header(packet.stream, packet.writer)?;
    let size = 16 + ranged_length(&packet.body)?;
    if out.len() < size {
        return Err(Refusal::ShortOutput);
    }
    Ok(size)
}

// Writes a packet to the front of `out` and tells its length; bytes beyond remain, and a refusal writes none.
pub fn write(packet: &Packet<'_>, out: &mut [u8]) -> Result<usize, Refusal>
    ensures answer { result ≡ write_answer (packet_in_range (plain_packet packet.now)) (encode (plain_packet packet.now)) out.old }
    ensures reads_back { IfOk result (λ n. decode (take n out.new) ≡ Ok (canonical_packet (plain_packet packet.now))) }
    ensures buffer { out.new ≡ buffer_after result (encode (plain_packet packet.now)) out.old }
{
    let size = check_write(packet, out)?;
    write_header(packet, out);
    write_body(&packet.body, out);
    Ok(size)
}
