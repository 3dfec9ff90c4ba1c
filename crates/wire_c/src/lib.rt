// A few calls of the codec for programs in C and Rust: each answers one number, which is the refusal's where the codec
// refuses: so each call ends in a match of its own. The caller passes pointers that are valid for the lengths given with them.
#![tactic(auto)]

ghost use Rattle.std.specs.Prelude.{◌≡◌};
ghost use Rattle.wire.specs.Decoding.{decode};
ghost use Rattle.wire.specs.Plain.{plain_body, plain_packet};
ghost use Rattle.wire.specs.declared.packet.Body.TheVariants.{Data, Hack as HackOf, JoinStream};
ghost use Rattle.wire_c.specs.Exports.{body_digest, packet_digest, read_number, write_number, packet_answer, packet_after, rewrite_number, rewrite_after, packet_from, hack_of};

use wire::{Body, Hack, Message, Packet, TreeId, read, write};

// The fields of a HACK, as C has them.
#[repr(C)]
#[derive(Clone, Copy)]
pub struct Report {
    pub term: u32,
    pub serial: u32,
    pub lsn: u32,
    pub hsn: u32,
    pub flags: [u32; 9],
}

impl From<Report> for Hack {
    ghost from_gives = { λ report hack. hack ≡ hack_of report };

    fn from(report: Report) -> Hack {
        let flags = report.flags;
        Hack {
            term: report.term,
            serial: report.serial,
            lsn: report.lsn,
            hsn: report.hsn,
            flags,
        }
    }
}

fn body_digest(body: &Body<&[u8]>) -> u64
    ensures { result ≡ body_digest (plain_body body.now) }
{
    match body {
        Body::Data { number, payload } | Body::Retransmission { number, payload } => {
            *number as u64 ^ payload.len() as u64
        }
        Body::Hack(hack) => {
            hack.term as u64
                ^ hack.serial as u64
                ^ hack.lsn as u64
                ^ hack.hsn as u64
                ^ hack.flags[0] as u64
                ^ hack.flags[8] as u64
        }
        Body::JoinConfirm { term, start, slot } => *term as u64 ^ *start as u64 ^ *slot as u64,
        Body::HeartbeatResponse { term, clock } => *term as u64 ^ *clock as u64,
        Body::JoinStream { term: field }
        | Body::JoinAck { term: field }
        | Body::LeaveStream { term: field }
        | Body::Heartbeat { clock: field }
        | Body::NullData { highest: field }
        | Body::Eject { term: field }
        | Body::Eos { highest: field }
        | Body::LeaveConfirm { term: field } => *field as u64,
    }
}

fn digest(packet: &Packet<'_>) -> u64
    ensures { result ≡ packet_digest (plain_packet packet.now) }
{
    let stream = packet.stream as u64;
    let writer = (packet.writer as u64) << 16;
    let addressee = (packet.addressee as u64) << 32;
    stream ^ writer ^ addressee ^ body_digest(&packet.body)
}

// Reads a packet: a number that depends on all of its fields, so that a reader that skips one is found out.
#[unsafe(no_mangle)]
pub extern "C" fn wire_read(bytes: &[u8]) -> u64
    ensures { result ≡ read_number (decode bytes.now) }
{
    match read(bytes) {
        Ok(packet) => digest(&packet),
        Err(refusal) => refusal.number() as u64,
    }
}

// Writes a packet to the front of `out`.
fn write_number(packet: &Packet<'_>, out: &mut [u8]) -> u64
    ensures answer { result ≡ write_number (packet_answer (plain_packet packet.now) out.old) }
    ensures buffer { out.new ≡ packet_after (plain_packet packet.now) out.old }
{
    match write(packet, out) {
        Ok(len) => len as u64,
        Err(refusal) => refusal.number() as u64,
    }
}

// Reads a packet and writes it again.
#[unsafe(no_mangle)]
pub extern "C" fn wire_rewrite(bytes: &[u8], out: &mut [u8]) -> u64
    ensures answer { result ≡ rewrite_number (decode bytes.now) out.old }
    ensures buffer { out.new ≡ rewrite_after (decode bytes.now) out.old }
{
    match read(bytes) {
        Ok(packet) => write_number(&packet, out),
        Err(refusal) => refusal.number() as u64,
    }
}

// A packet of a fixed tree and stream.
fn packet_from<'a>(writer: u16, body: Body<&'a [u8]>) -> Packet<'a>
    ensures { plain_packet result ≡ packet_from writer (plain_body body.entry) }
{
    Message {
        tree: TreeId([1, 2, 3, 4, 5, 6]),
        stream: 40000,
        writer,
        addressee: 9,
        body,
    }
}

// Writes a Data packet of a fixed tree and stream.
#[unsafe(no_mangle)]
pub extern "C" fn wire_write_data(writer: u16, number: u32, payload: &[u8], out: &mut [u8]) -> u64
    ensures answer { result ≡ write_number (packet_answer (packet_from writer (Data number payload.now)) out.old) }
    ensures buffer { out.new ≡ packet_after (packet_from writer (Data number payload.now)) out.old }
{
    write_number(&packet_from(writer, Body::Data { number, payload }), out)
}

// Writes a JoinStream packet of a fixed tree and stream.
#[unsafe(no_mangle)]
pub extern "C" fn wire_write_join(writer: u16, term: u32, out: &mut [u8]) -> u64
    ensures answer { result ≡ write_number (packet_answer (packet_from writer (JoinStream term)) out.old) }
    ensures buffer { out.new ≡ packet_after (packet_from writer (JoinStream term)) out.old }
{
    write_number(&packet_from(writer, Body::JoinStream { term }), out)
}

// Writes a HACK of a fixed tree and stream.
#[unsafe(no_mangle)]
pub extern "C" fn wire_write_hack(writer: u16, report: &Report, out: &mut [u8]) -> u64
    ensures answer { result ≡ write_number (packet_answer (packet_from writer (HackOf (hack_of report.now))) out.old) }
    ensures buffer { out.new ≡ packet_after (packet_from writer (HackOf (hack_of report.now))) out.old }
{
    write_number(&packet_from(writer, Body::Hack(Hack::from(*report))), out)
}
