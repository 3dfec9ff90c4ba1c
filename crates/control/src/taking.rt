// What a packet is to a control node.
ghost use Rattle.std.specs.Prelude.{◌≡◌};
ghost use Rattle.wire.specs.Plain.{plain_body};
ghost use Rattle.control.specs.Controls.{SeenRows};
ghost use Rattle.control.specs.Incomings.{child_packet, incoming_of};

use member::types::FromParent;
use rows::row::FromChild;
use wire::Body;

#[derive(Clone, Copy)]
pub enum Incoming {
    Parent(FromParent),
    Child(FromChild),
}

// A packet as one of a child's, by its type alone. No TryFrom: another type is no error here.
fn child_packet(body: &Body<&[u8]>) -> Option<FromChild>
    ensures { result ≡ child_packet (plain_body body.now) }
{
    match *body {
        Body::Hack(hack) => Some(FromChild::Hack(hack)),
        Body::JoinStream { term } => Some(FromChild::JoinStream { term }),
        Body::LeaveStream { term } => Some(FromChild::LeaveStream { term }),
        Body::HeartbeatResponse { term, .. } => Some(FromChild::HeartbeatResponse { term }),
        Body::Data { .. }
        | Body::Retransmission { .. }
        | Body::JoinAck { .. }
        | Body::JoinConfirm { .. }
        | Body::Heartbeat { .. }
        | Body::NullData { .. }
        | Body::Eject { .. }
        | Body::Eos { .. }
        | Body::LeaveConfirm { .. } => None,
    }
}

// A packet by its type alone, whoever wrote it.
pub(crate) fn classify(body: &Body<&[u8]>) -> Option<Incoming>
    ensures { result ≡ incoming_of (plain_body body.now) }
{
    match FromParent::from_body(body) {
        Some(packet) => Some(Incoming::Parent(packet)),
        None => child_packet(body).map(Incoming::Child),
    }
}
