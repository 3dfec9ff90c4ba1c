// What a packet holds: its header, and one of thirteen bodies.
ghost use Rattle.std.specs.Prelude.{◌≡◌, length, Decides, bytes_eq};
ghost use Rattle.wire.specs.Plain.{no_payload, plain_body, plain_packet, bare_packet, map_body};

use std::convert::Infallible;

// Which tree a packet belongs to.
#[derive(Clone, Copy, Debug, PartialEq, Eq)]
pub struct TreeId(pub [u8; 6]);

impl TreeId {
    // Whether two are the same tree.
    pub fn is(self, other: TreeId) -> bool
        ensures decides { Decides result (self.0 ≡ other.0) }
        ensures is { result ≡ bytes_eq self.0 other.0 }
    {
        self == other
    }

    // The six bytes, in the order of a packet.
    pub fn bytes(self) -> [u8; 6]
        ensures is { result ≡ self.0 }
        ensures long { length self.0 ≡ 6 }
    {
        self.0
    }
}

// A report of what is held: `flags` lie as in a packet. A report that was read has the positions before `lsn` set and those
// after `hsn` clear; in any other they may hold anything, and `write` sets them.
#[derive(Clone, Copy, PartialEq, Eq, Debug)]
pub struct Hack {
    pub term: u32,
    pub serial: u32,
    pub lsn: u32,
    pub hsn: u32,
    pub flags: [u32; 9],
}

// What a packet says; `P` is the payload of the two that carry one.
#[derive(Clone, Copy, PartialEq, Eq, Debug)]
pub enum Body<P> {
    Data { number: u32, payload: P },
    Retransmission { number: u32, payload: P },
    Hack(Hack),
    JoinStream { term: u32 },
    JoinAck { term: u32 },
    JoinConfirm { term: u32, start: u32, slot: u16 },
    LeaveStream { term: u32 },
    Heartbeat { clock: u32 },
    NullData { highest: u32 },
    Eject { term: u32 },
    Eos { highest: u32 },
    HeartbeatResponse { term: u32, clock: u32 },
    LeaveConfirm { term: u32 },
}

// A body with no payload is one of any packet.
impl<'a> From<Body<Infallible>> for Body<&'a [u8]> {
    ghost from_gives = { λ bare body. plain_body body ≡ map_body no_payload (λ h. h) bare };

    fn from(bare: Body<Infallible>) -> Body<&'a [u8]> {
        match bare {
            Body::Hack(hack) => Body::Hack(hack),
            Body::JoinStream { term } => Body::JoinStream { term },
            Body::JoinAck { term } => Body::JoinAck { term },
            Body::JoinConfirm { term, start, slot } => Body::JoinConfirm { term, start, slot },
            Body::LeaveStream { term } => Body::LeaveStream { term },
            Body::Heartbeat { clock } => Body::Heartbeat { clock },
            Body::NullData { highest } => Body::NullData { highest },
            Body::Eject { term } => Body::Eject { term },
            Body::Eos { highest } => Body::Eos { highest },
            Body::HeartbeatResponse { term, clock } => Body::HeartbeatResponse { term, clock },
            Body::LeaveConfirm { term } => Body::LeaveConfirm { term },
        }
    }
}

// A packet: the header's fields and the body, all public, so it has no model. `addressee` is 0 where the packet is for all, as
// it stands in the packet: an Option would spell that number twice.
#[derive(Clone, Copy, PartialEq, Eq, Debug)]
pub struct Message<P> {
    pub tree: TreeId,
    pub stream: u16,
    pub writer: u16,
    pub addressee: u16,
    pub body: Body<P>,
}

// A packet whose payload is lent.
pub type Packet<'a> = Message<&'a [u8]>;

impl<'a> Message<&'a [u8]> {
    // A packet with no payload.
    pub fn bare(
        tree: TreeId,
        stream: u16,
        writer: u16,
        addressee: u16,
        body: Body<Infallible>,
    ) -> Packet<'a>
        ensures { plain_packet result ≡ bare_packet tree stream writer addressee body }
    {
        Message {
            tree,
            stream,
            writer,
            addressee,
            body: Body::from(body),
        }
    }
}
