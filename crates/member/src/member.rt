// A member of the tree: how it joins, leaves, falls silent and reports, whatever its kind.
ghost use Rattle.std.specs.Prelude.{◌≡◌, ℕ, ◌≤◌, is_ok};
ghost use Rattle.wire.specs.Encoding.{encode, buffer_after};
ghost use Rattle.address.specs.Addresses.{written};
ghost use Rattle.member.specs.Members.{member_seen, upper_number, is_top, is_joined, up_packet, parent_term, join_packet, join_answer, join_after, leave_packet, leave_answer, leave_after, gone, goes_silent, tick_after, report_answer, report_after, report_bytes, admitted, heard};

use crate::kind::Kind;
use crate::types::{FromParent, Heard, Identity, Response, Standing, Summary, Upper};
use answer::{Outcome, Refusal};
use std::convert::Infallible;
use wire::{Body, Hack};

// There is no model: the fields are public, and what `kind` is seen as comes only with the bound `Kind`. Outside, the last
// start, slot, serial and heard stay, so `standing` is no Option around them.
#[derive(Drop)]
pub struct Member<K> {
    pub identity: Identity,
    pub standing: Standing,
    pub term: u32,
    pub start: u32,
    pub slot: u16,
    pub serial: u32,
    pub heard: u32,
    pub kind: K,
}

impl Standing {
    pub fn is_joined(self) -> bool
        ensures { result ≡ is_joined self }
    {
        matches!(self, Standing::Joined)
    }
}

impl Upper {
    pub fn number(self) -> u16
        ensures { result ≡ upper_number self }
    {
        match self {
            Upper::Parent(number) | Upper::Sender(number) => number,
        }
    }

    pub fn is_top(self) -> bool
        ensures { result ≡ is_top self }
    {
        matches!(self, Upper::Sender(_))
    }
}

impl FromParent {
    // The term in a packet; a Heartbeat has none.
    fn term(self) -> Option<u32>
        ensures { result ≡ parent_term self }
    {
        match self {
            FromParent::JoinAck { term }
            | FromParent::JoinConfirm { term, .. }
            | FromParent::Eject { term }
            | FromParent::LeaveConfirm { term } => Some(term),
            FromParent::Heartbeat { .. } => None,
        }
    }
}

impl Identity {
    // Writes a packet to the parent, and from the top to the sender.
    pub fn write_up(self, body: Body<Infallible>, out: &mut [u8]) -> Result<usize, Refusal>
        ensures answer { result ≡ written (up_packet self body) out.old }
        ensures buffer { out.new ≡ buffer_after result (encode (up_packet self body)) out.old }
    {
        self.address.write_to(self.upper.number(), body, out)
    }
}

impl<K: Kind> Member<K> {
    // Asks the parent to be let in.
    pub fn join(&mut self, out: &mut [u8]) -> Result<usize, Refusal>
        ensures answer { result ≡ join_answer self.old.standing (member_seen K.seen self.old) out.old }
        ensures after { member_seen K.seen self.new ≡ join_after (is_ok result) (member_seen K.seen self.old) }
        ensures buffer { out.new ≡ buffer_after result (encode (join_packet (member_seen K.seen self.old))) out.old }
    {
        let term = match self.standing {
            Standing::Joined => return Err(Refusal::WrongStanding),
            Standing::Waiting => self.term,
            Standing::Outside => self.term.checked_add(1).ok_or(Refusal::Exhausted)?,
        };
        let len = self.identity.write_up(Body::JoinStream { term }, out)?;
        self.standing = Standing::Waiting;
        self.term = term;
        Ok(len)
    }

    // Leaves the tree and tells the parent; again where that may have been lost.
    pub fn leave(&mut self, out: &mut [u8]) -> Result<usize, Refusal>
        ensures answer { result ≡ leave_answer K.busy (member_seen K.seen self.old) out.old }
        ensures after { member_seen K.seen self.new ≡ leave_after K.exited (is_ok result) (member_seen K.seen self.old) }
        ensures buffer { out.new ≡ buffer_after result (encode (leave_packet (member_seen K.seen self.old))) out.old }
    {
        let term = self.term;
        if self.identity.upper.is_top() || term == 0 {
            return Err(Refusal::WrongStanding);
        }
        if self.kind.is_busy() {
            return Err(Refusal::HasLiveRow);
        }
        let len = self.identity.write_up(Body::LeaveStream { term }, out)?;
        self.go_outside();
        Ok(len)
    }

    // Goes outside if the parent was last heard more than the limit before the clock; tells whether it did.
    pub fn tick(&mut self, clock: u32) -> bool
        ensures answer { result ≡ goes_silent clock (member_seen K.seen self.old) }
        ensures after { member_seen K.seen self.new ≡ tick_after K.exited clock (member_seen K.seen self.old) }
    {
        if !self.standing.is_joined() || self.identity.upper.is_top() {
            return false;
        }
        if clock.saturating_sub(self.heard) > self.identity.limit {
            self.go_outside();
            true
        } else {
            false
        }
    }

    // Writes a report to the parent, and from the top to the sender.
    pub fn report(&mut self, out: &mut [u8]) -> Result<usize, Refusal>
        ensures answer { result ≡ report_answer K.summary (member_seen K.seen self.old) out.old }
        ensures after { member_seen K.seen self.new ≡ report_after K.settled (is_ok result) (member_seen K.seen self.old) }
        ensures buffer { out.new ≡ buffer_after result (report_bytes (K.summary (K.seen self.old.kind)) (member_seen K.seen self.old)) out.old }
        ensures rises { K.Sound (K.seen self.old.kind) → K.floor (K.seen self.old.kind) ≤ K.floor (K.seen self.new.kind) }
    {
        if !self.standing.is_joined() {
            return Err(Refusal::WrongStanding);
        }
        let Summary { lsn, hsn, flags } = self.kind.summarize().ok_or(Refusal::NoLiveRow)?;
        let serial = self.serial.checked_add(1).ok_or(Refusal::Exhausted)?;
        let hack = Hack {
            term: self.term,
            serial,
            lsn,
            hsn,
            flags,
        };
        let len = self.identity.write_up(Body::Hack(hack), out)?;
        self.serial = serial;
        self.kind.settle();
        Ok(len)
    }

    // What a packet of the parent makes of the member: its standing and the packet decide together.
    pub fn take(&mut self, packet: FromParent, clock: u32) -> Heard
        ensures { (member_seen K.seen self.new, result) ≡ heard K.entered K.exited clock self.old.standing packet (member_seen K.seen self.old) }
    {
        let own = packet.term() == Some(self.term);
        let (outcome, response) = match (self.standing, packet, own) {
            (Standing::Waiting, FromParent::JoinConfirm { start, slot, .. }, true) => {
                self.admit(start, slot, clock);
                (Outcome::Taken, None)
            }
            (Standing::Waiting | Standing::Joined, FromParent::Eject { .. }, true) => {
                self.go_outside();
                (Outcome::Taken, None)
            }
            (Standing::Waiting, FromParent::JoinAck { .. }, true)
            | (Standing::Outside, FromParent::LeaveConfirm { .. }, true) => (Outcome::Taken, None),
            (Standing::Joined, FromParent::Heartbeat { clock: sent }, _) => {
                self.heard = clock;
                let response = Response {
                    term: self.term,
                    clock: sent,
                };
                (Outcome::Taken, Some(response))
            }
            _ => (Outcome::Stale, None),
        };
        Heard { outcome, response }
    }

    fn go_outside(&mut self)
        ensures { member_seen K.seen self.new ≡ gone K.exited (member_seen K.seen self.old) }
    {
        self.standing = Standing::Outside;
        self.kind.exit();
    }

    // Joins at the parent's word.
    fn admit(&mut self, start: u32, slot: u16, clock: u32)
        ensures { member_seen K.seen self.new ≡ admitted K.entered start slot clock (member_seen K.seen self.old) }
    {
        self.standing = Standing::Joined;
        self.start = start;
        self.slot = slot;
        self.serial = 0;
        self.heard = clock;
        self.kind.enter(start);
    }
}
