// What a member is told at its making, how it stands, and what its parent sends it.
use address::Address;
use answer::Outcome;

#[derive(Clone, Copy, PartialEq, Eq, Debug)]
pub enum Standing {
    Outside,
    Waiting,
    Joined,
}

// Where reports go. Only the top reports to the sender; it is always joined and has no parent.
#[derive(Clone, Copy)]
pub enum Upper {
    Parent(u16),
    Sender(u16),
}

// What never changes of a node. `limit` is the longest silence, in milliseconds.
#[derive(Clone, Copy)]
pub struct Identity {
    pub address: Address,
    pub upper: Upper,
    pub limit: u32,
}

#[derive(Clone, Copy)]
pub enum FromParent {
    JoinAck { term: u32 },
    JoinConfirm { term: u32, start: u32, slot: u16 },
    Heartbeat { clock: u32 },
    Eject { term: u32 },
    LeaveConfirm { term: u32 },
}

// The HeartbeatResponse that is owed for a Heartbeat.
#[derive(Clone, Copy, PartialEq, Eq, Debug)]
pub struct Response {
    pub term: u32,
    pub clock: u32,
}

// A member's answer to its parent. It owes nothing but a HeartbeatResponse, so it is no `Accepted` with any body.
#[derive(Clone, Copy, PartialEq, Eq, Debug)]
pub struct Heard {
    pub outcome: Outcome,
    pub response: Option<Response>,
}

// What a kind of member has to report.
#[derive(Clone, Copy)]
pub struct Summary {
    pub lsn: u32,
    pub hsn: u32,
    pub flags: [u32; 9],
}
