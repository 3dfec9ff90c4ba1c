// How any node on the channel takes bytes: the refusals in their order, once for every kind of node.
ghost use Rattle.std.specs.Prelude.{◌≡◌, ℕ, List, Option, is_ok};
ghost use Rattle.wire.specs.Decoding.{decode};
ghost use Rattle.wire.specs.Plain.{plain_packet};
ghost use Rattle.wire.specs.declared.packet.Message.{Message};
ghost use Rattle.address.specs.declared.Address.{Address};
ghost use Rattle.address.specs.Deliveries.{Acceptance, deliver_answer, deliver_after, deliver_buffer};

use crate::Address;
use answer::{Delivered, Outcome, Refusal};
use std::convert::Infallible;
use std::marker::PhantomData;
use wire::{Body, Packet, read};

// The longest reply, a JoinConfirm. Every deliver wants a buffer of this length, whether a reply comes or not.
pub const REPLY_ROOM: usize = 26;

// What a node answers to a packet that it let in, and the reply to its writer.
#[derive(Clone, Copy)]
pub struct Accepted {
    pub outcome: Outcome,
    pub reply: Option<Body<Infallible>>,
}

// A packet past all the checks of a node of type `N`. Only `deliver` makes one, and hands it to that node: nobody else can
// bring a packet to `accept`, and no node can pass one on to a node of another type.
pub struct Admitted<N, I> {
    writer: u16,
    incoming: I,
    node: PhantomData<N>,
}

impl<N, I> Admitted<N, I> {
    // Who wrote the packet, and what it is to the node.
    pub fn open(self) -> (u16, I)
        ensures { result ≡ (self.writer, self.incoming) }
    {
        let Admitted {
            writer,
            incoming,
            node: _,
        } = self;
        (writer, incoming)
    }
}

// A node on the channel, seen as `Seen`: what it takes, and what it makes of that.
pub trait Node: Sized {
    // what a packet is to the node
    type Incoming: Copy;

    ghost Seen: { Type 0 };

    ghost seen: { Self → Seen };

    ghost own: { Seen → Address };

    ghost takes: { Seen → Message (List ℕ) → Option Self.Incoming };

    ghost accepts: { ℕ → Seen → ℕ → Self.Incoming → Acceptance Seen };

    // Who the node is.
    fn address(&self) -> Address
        ensures { result ≡ own (seen self.now) };

    // What a packet is to the node, or none if its type is not taken from its writer.
    fn known(&self, packet: &Packet<'_>) -> Option<Self::Incoming>
        ensures { result ≡ takes (seen self.now) (plain_packet packet.now) };

    // What a packet that was let in makes of the node.
    fn accept(&mut self, clock: u32, packet: Admitted<Self, Self::Incoming>) -> Accepted
        ensures after { seen self.new ≡ (accepts clock (seen self.old) packet.writer packet.incoming).node }
        ensures outcome { result.outcome ≡ (accepts clock (seen self.old) packet.writer packet.incoming).outcome }
        ensures reply { result.reply ≡ (accepts clock (seen self.old) packet.writer packet.incoming).reply };
}

// What a node makes of bytes from the channel, and the reply that goes to their writer.
pub fn deliver<N: Node>(
    node: &mut N,
    clock: u32,
    bytes: &[u8],
    reply: &mut [u8],
) -> Result<Delivered, Refusal>
    ensures answer { result ≡ deliver_answer (N.own (N.seen node.old)) (N.takes (N.seen node.old)) (N.accepts clock (N.seen node.old)) (decode bytes.now) reply.old }
    ensures after { N.seen node.new ≡ deliver_after (N.own (N.seen node.old)) (N.takes (N.seen node.old)) (N.accepts clock (N.seen node.old)) (is_ok result) (N.seen node.old) (decode bytes.now) }
    ensures buffer { reply.new ≡ deliver_buffer (N.own (N.seen node.old)) (N.takes (N.seen node.old)) (N.accepts clock (N.seen node.old)) (is_ok result) (N.seen node.old) (decode bytes.now) reply.old }
{
    let packet = read(bytes)?;
    let address = node.address();
    address.check(&packet)?;
    let incoming = node.known(&packet).ok_or(Refusal::NotTaken)?;
    if reply.len() < REPLY_ROOM {
        return Err(Refusal::ShortOutput);
    }
    let admitted = Admitted {
        writer: packet.writer,
        incoming,
        node: PhantomData,
    };
    let accepted = node.accept(clock, admitted);
    Ok(Delivered {
        outcome: accepted.outcome,
        reply: address.write_reply(packet.writer, accepted.reply, reply),
    })
}
