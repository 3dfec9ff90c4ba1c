// A control node, or the top: its calls over bytes.
ghost use Rattle.std.specs.Prelude.{◌≡◌, ℕ, is_ok};
ghost use Rattle.wire.specs.Decoding.{decode};
ghost use Rattle.wire.specs.Encoding.{encode, buffer_after};
ghost use Rattle.rows.specs.Tables.{rows_of};
ghost use Rattle.member.specs.declared.member.Member.{Member};
ghost use Rattle.member.specs.Members.{member_seen, join_packet, join_answer, join_after, leave_packet, leave_answer, leave_after, report_answer, report_after, report_bytes};
ghost use Rattle.control.specs.Controls.{SeenRows, rows_seen, rows_entered, rows_exited, rows_summary, rows_settled};
ghost use Rattle.control.specs.Incomings.{taken_from, takes};
ghost use Rattle.control.specs.Nodes.{new_control, control_busy, ticked, beat_packet, beat_answer, child_accepted, term_from, reply_body, accepts, deliver_answer, deliver_after, deliver_buffer};

use crate::kind::Rows;
use crate::taking::{Incoming, classify};
use address::{Accepted, Address, Admitted, Node, deliver};
use answer::{Delivered, Outcome, Refusal};
use member::member::Member;
use member::types::{Identity, Standing};
use rows::row::{FromChild, Reply};
use rows::table::RowTable;
use std::convert::Infallible;
use std::marker::Model;
use wire::{Body, Packet};

#[derive(Drop)]
pub struct Control {
    member: Member<Rows<RowTable>>,
}

// A control node is seen as its member, and that by its rows.
impl Model for Control {
    ghost Value = { Member SeenRows };

    ghost view = { λ c. member_seen rows_seen c.member };
}

impl Control {
    // A node that was never joined, or a top, which always is. It refuses nothing.
    pub fn new(identity: Identity, table: RowTable) -> Control
        ensures { result ≡ new_control identity (rows_of table) }
    {
        let (standing, term) = if identity.upper.is_top() {
            (Standing::Joined, 1)
        } else {
            (Standing::Outside, 0)
        };
        let member = Member {
            identity,
            standing,
            term,
            start: 1,
            slot: 0,
            serial: 0,
            heard: 0,
            kind: Rows { low: 1, table },
        };
        Control { member }
    }

    // Asks the parent to be let in.
    pub fn join(&mut self, out: &mut [u8]) -> Result<usize, Refusal>
        ensures answer { result ≡ join_answer self.old.standing self.old out.old }
        ensures after { self.new ≡ join_after (is_ok result) self.old }
        ensures buffer { out.new ≡ buffer_after result (encode (join_packet self.old)) out.old }
    {
        self.member.join(out)
    }

    // Leaves the tree, unless a child still counts on it.
    pub fn leave(&mut self, out: &mut [u8]) -> Result<usize, Refusal>
        ensures answer { result ≡ leave_answer control_busy self.old out.old }
        ensures after { self.new ≡ leave_after rows_exited (is_ok result) self.old }
        ensures buffer { out.new ≡ buffer_after result (encode (leave_packet self.old)) out.old }
    {
        self.member.leave(out)
    }

    // Reports what all live rows vouch for.
    pub fn report(&mut self, out: &mut [u8]) -> Result<usize, Refusal>
        ensures answer { result ≡ report_answer rows_summary self.old out.old }
        ensures after { self.new ≡ report_after rows_settled (is_ok result) self.old }
        ensures buffer { out.new ≡ buffer_after result (report_bytes (rows_summary self.old.kind) self.old) out.old }
    {
        self.member.report(out)
    }

    // Goes outside with all rows if the parent is silent; else rows that are silent die.
    pub fn tick(&mut self, clock: u32)
        ensures { self.new ≡ ticked clock self.old }
    {
        if !self.member.tick(clock) {
            let limit = self.member.identity.limit;
            self.member.kind.table.tick(limit, clock);
        }
    }

    // Writes a Heartbeat to all.
    pub fn beat(&self, clock: u32, out: &mut [u8]) -> Result<usize, Refusal>
        ensures answer { result ≡ beat_answer clock self.now out.old }
        ensures buffer { out.new ≡ buffer_after result (encode (beat_packet clock self.now)) out.old }
    {
        if !self.member.standing.is_joined() {
            return Err(Refusal::WrongStanding);
        }
        self.member
            .identity
            .address
            .write_to(0, Body::Heartbeat { clock }, out)
    }

    // Whether a packet is taken from its writer.
    fn takes_from(&self, writer: u16, incoming: &Incoming) -> bool
        ensures { result ≡ taken_from self.now writer incoming.now }
    {
        match incoming {
            Incoming::Parent(_) => self.member.identity.upper.is_parent(writer),
            Incoming::Child(_) => self.member.kind.table.slot_of(writer).is_some(),
        }
    }

    fn hear_child(&mut self, clock: u32, writer: u16, packet: FromChild) -> Accepted
        ensures after { self.new ≡ (child_accepted clock self.old writer packet).node }
        ensures outcome { result.outcome ≡ (child_accepted clock self.old writer packet).outcome }
        ensures reply { result.reply ≡ (child_accepted clock self.old writer packet).reply }
    {
        let joined = self.member.standing.is_joined();
        let low = self.member.kind.low;
        let table = &mut self.member.kind.table;
        match table.take(writer, joined, low, packet, clock) {
            Some(decision) => Accepted {
                outcome: decision.outcome,
                reply: decision
                    .reply
                    .map(|reply| reply_body(term_from(packet), reply)),
            },
            None => Accepted {
                outcome: Outcome::Stale,
                reply: None,
            },
        }
    }

    // What the node makes of bytes from the channel, and the reply that goes to their writer.
    pub fn deliver(
        &mut self,
        clock: u32,
        bytes: &[u8],
        reply: &mut [u8],
    ) -> Result<Delivered, Refusal>
        ensures answer { result ≡ deliver_answer clock self.old (decode bytes.now) reply.old }
        ensures after { self.new ≡ deliver_after clock (is_ok result) self.old (decode bytes.now) }
        ensures buffer { reply.new ≡ deliver_buffer clock (is_ok result) self.old (decode bytes.now) reply.old }
    {
        deliver(self, clock, bytes, reply)
    }
}

impl Node for Control {
    type Incoming = Incoming;

    ghost Seen = { Member SeenRows };

    ghost seen = { λ m. m };

    ghost own = { λ m. m.identity.address };

    ghost takes = { takes };

    ghost accepts = { accepts };

    fn address(&self) -> Address {
        self.member.identity.address
    }

    fn known(&self, packet: &Packet<'_>) -> Option<Incoming> {
        let incoming = classify(&packet.body)?;
        self.takes_from(packet.writer, &incoming)
            .then_some(incoming)
    }

    fn accept(&mut self, clock: u32, packet: Admitted<Control, Incoming>) -> Accepted
        ensures after { self.new ≡ (accepts clock self.old packet.writer packet.incoming).node }
        ensures outcome { result.outcome ≡ (accepts clock self.old packet.writer packet.incoming).outcome }
        ensures reply { result.reply ≡ (accepts clock self.old packet.writer packet.incoming).reply }
    {
        let (writer, incoming) = packet.open();
        match incoming {
            Incoming::Parent(packet) => self.member.take(packet, clock).into(),
            Incoming::Child(packet) => self.hear_child(clock, writer, packet),
        }
    }
}

fn term_from(packet: FromChild) -> u32
    ensures { result ≡ term_from packet }
{
    match packet {
        FromChild::JoinStream { term }
        | FromChild::LeaveStream { term }
        | FromChild::HeartbeatResponse { term } => term,
        FromChild::Hack(hack) => hack.term,
    }
}

// A reply to a child, with the term of its packet.
fn reply_body(term: u32, reply: Reply) -> Body<Infallible>
    ensures { result ≡ reply_body term reply }
{
    match reply {
        Reply::JoinAck => Body::JoinAck { term },
        Reply::JoinConfirm { start, slot } => {
            let slot = u16::try_from(slot).unwrap_or(u16::MAX);
            Body::JoinConfirm { term, start, slot }
        }
        Reply::Eject => Body::Eject { term },
        Reply::LeaveConfirm => Body::LeaveConfirm { term },
    }
}
