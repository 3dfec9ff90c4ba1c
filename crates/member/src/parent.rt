// Which packets come from a parent, and the packet that answers one.
ghost use Rattle.std.specs.Prelude.{◌≡◌};
ghost use Rattle.wire.specs.Plain.{plain_body};
ghost use Rattle.member.specs.Parents.{is_parent, parent_packet, response_body, HeardAs};

use crate::types::{FromParent, Heard, Response, Upper};
use address::Accepted;
use std::convert::Infallible;
use wire::Body;

impl Upper {
    // Whether a node is the parent. The top has none.
    pub fn is_parent(self, writer: u16) -> bool
        ensures { result ≡ is_parent self writer }
    {
        matches!(self, Upper::Parent(number) if number == writer)
    }
}

impl FromParent {
    // A packet as one of the parent's, by its type alone. No TryFrom: another type is no error here.
    pub fn from_body(body: &Body<&[u8]>) -> Option<FromParent>
        ensures { result ≡ parent_packet (plain_body body.now) }
    {
        match *body {
            Body::JoinAck { term } => Some(FromParent::JoinAck { term }),
            Body::JoinConfirm { term, start, slot } => {
                Some(FromParent::JoinConfirm { term, start, slot })
            }
            Body::Heartbeat { clock } => Some(FromParent::Heartbeat { clock }),
            Body::Eject { term } => Some(FromParent::Eject { term }),
            Body::LeaveConfirm { term } => Some(FromParent::LeaveConfirm { term }),
            Body::Data { .. }
            | Body::Retransmission { .. }
            | Body::Hack(_)
            | Body::JoinStream { .. }
            | Body::LeaveStream { .. }
            | Body::NullData { .. }
            | Body::Eos { .. }
            | Body::HeartbeatResponse { .. } => None,
        }
    }
}

// The packet that answers a Heartbeat.
impl From<Response> for Body<Infallible> {
    ghost from_gives = { λ response body. body ≡ response_body response };

    fn from(response: Response) -> Body<Infallible> {
        let Response { term, clock } = response;
        Body::HeartbeatResponse { term, clock }
    }
}

impl From<Heard> for Accepted {
    ghost from_gives = { HeardAs };

    fn from(heard: Heard) -> Accepted {
        Accepted {
            outcome: heard.outcome,
            reply: heard.response.map(Body::from),
        }
    }
}
