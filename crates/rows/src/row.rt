// What a control node knows of one child, and what a packet of the child, or the clock, makes of it.
ghost use Rattle.std.specs.Prelude.{◌≡◌};
ghost use Rattle.rows.specs.Rows.{nothing_held, new_row, dead_row, heard_row, admitted_row, ticked_row, row_holds, live_at, join_decision, leave_decision, report_decision, response_decision, decision};

use answer::Outcome;
use wire::Hack;

// `hack` has the term, and of the last report that was taken since the row became live the serial, LSN (low), HSN (high)
// and flags; before the first report it says that nothing from `start` on is held. All of this stays in a dead row, and
// its term still counts: `live` is no Option around it.
#[derive(Clone, Copy)]
pub struct Row {
    pub child: u16,
    pub live: bool,
    pub start: u32,
    pub heard: u32,
    pub hack: Hack,
}

// What a child writes to its parent.
#[derive(Clone, Copy)]
pub enum FromChild {
    JoinStream { term: u32 },
    LeaveStream { term: u32 },
    Hack(Hack),
    HeartbeatResponse { term: u32 },
}

// What is written back to the child, with the term of its packet.
#[derive(Clone, Copy, PartialEq, Eq, Debug)]
pub enum Reply {
    JoinAck,
    JoinConfirm { start: u32, slot: usize },
    Eject,
    LeaveConfirm,
}

// What a packet makes of its child's row, the answer, and the reply.
#[derive(Clone, Copy)]
pub struct Decision {
    pub row: Row,
    pub outcome: Outcome,
    pub reply: Option<Reply>,
}

// A node that decides on a child's packet: whether it is joined, the lowest number that it does not vouch for, and the
// child's slot. `low` is the node's while it is outside too, so `joined` is no Option around it.
#[derive(Clone, Copy)]
pub struct Parent {
    pub joined: bool,
    pub low: u32,
    pub slot: usize,
}

// A report of a term by which nothing from `low` on is held.
fn nothing_held(term: u32, low: u32) -> Hack
    ensures { result ≡ nothing_held term low }
{
    Hack {
        term,
        serial: 0,
        lsn: low,
        hsn: low.saturating_sub(1),
        flags: [0; 9],
    }
}

impl Decision {
    fn new(outcome: Outcome, row: Row, reply: Option<Reply>) -> Decision
        ensures { result ≡ record { row = row; outcome = outcome; reply = reply } }
    {
        Decision {
            row,
            outcome,
            reply,
        }
    }
}

impl Row {
    // A child that never joined.
    pub fn new(child: u16) -> Row
        ensures { result ≡ new_row child }
    {
        Row {
            child,
            live: false,
            start: 1,
            heard: 0,
            hack: nothing_held(0, 1),
        }
    }

    // Whether the child is known to hold a number.
    pub fn holds(self, number: u32) -> bool
        ensures { result ≡ row_holds self number }
    {
        self.hack.holds(number)
    }

    // Counts no longer, and is otherwise as it was.
    pub fn died(mut self) -> Row
        ensures { result ≡ dead_row self }
    {
        self.live = false;
        self
    }

    // Dies if it was last heard more than `limit` before the clock.
    pub fn ticked(self, limit: u32, clock: u32) -> Row
        ensures { result ≡ ticked_row limit clock self }
    {
        if clock.saturating_sub(self.heard) > limit {
            self.died()
        } else {
            self
        }
    }

    // What the child's packet makes of its row.
    pub fn decide(self, parent: Parent, packet: FromChild, clock: u32) -> Decision
        ensures { result ≡ decision parent clock packet self }
    {
        match packet {
            FromChild::JoinStream { term } => self.asked_in(parent, term, clock),
            FromChild::LeaveStream { term } => self.asked_out(term),
            FromChild::Hack(hack) => self.told(hack, clock),
            FromChild::HeartbeatResponse { term } => self.responded(term, clock),
        }
    }

    // Whether the row is live at a packet's term.
    pub(crate) fn live_at(self, term: u32) -> bool
        ensures { result ≡ live_at term self }
    {
        self.live && term == self.hack.term
    }

    fn heard_at(mut self, clock: u32) -> Row
        ensures { result ≡ heard_row clock self }
    {
        self.heard = clock;
        self
    }

    // Live anew: nothing from the parent's low on is held yet.
    fn admitted(self, low: u32, term: u32, clock: u32) -> Row
        ensures { result ≡ admitted_row low term clock self }
    {
        Row {
            child: self.child,
            live: true,
            start: low,
            heard: clock,
            hack: nothing_held(term, low),
        }
    }

    fn asked_in(self, parent: Parent, term: u32, clock: u32) -> Decision
        ensures { result ≡ join_decision parent clock term self }
    {
        let Parent { joined, low, slot } = parent;
        if !joined {
            return Decision::new(Outcome::Stale, self, Some(Reply::JoinAck));
        }
        if self.hack.term < term {
            let confirm = Reply::JoinConfirm { start: low, slot };
            let row = self.admitted(low, term, clock);
            return Decision::new(Outcome::Taken, row, Some(confirm));
        }
        if self.live_at(term) {
            let start = self.start;
            let confirm = Reply::JoinConfirm { start, slot };
            return Decision::new(Outcome::Taken, self.heard_at(clock), Some(confirm));
        }
        Decision::new(Outcome::Stale, self, Some(Reply::Eject))
    }

    fn asked_out(self, term: u32) -> Decision
        ensures { result ≡ leave_decision term self }
    {
        if term < self.hack.term {
            return Decision::new(Outcome::Stale, self, Some(Reply::LeaveConfirm));
        }
        let mut row = self.died();
        row.hack.term = term;
        Decision::new(Outcome::Taken, row, Some(Reply::LeaveConfirm))
    }

    fn told(self, hack: Hack, clock: u32) -> Decision
        ensures { result ≡ report_decision clock hack self }
    {
        if !self.live_at(hack.term) {
            return Decision::new(Outcome::Stale, self, Some(Reply::Eject));
        }
        if self.hack.serial < hack.serial && self.hack.lsn <= hack.lsn {
            let row = Row {
                heard: clock,
                hack,
                ..self
            };
            return Decision::new(Outcome::Taken, row, None);
        }
        Decision::new(Outcome::Stale, self, None)
    }

    fn responded(self, term: u32, clock: u32) -> Decision
        ensures { result ≡ response_decision clock term self }
    {
        if self.live_at(term) {
            Decision::new(Outcome::Taken, self.heard_at(clock), None)
        } else {
            Decision::new(Outcome::Stale, self, Some(Reply::Eject))
        }
    }
}
