// Who a node is on the channel: which packets are for it, and what it writes.
#![tactic(auto)]

ghost use Rattle.std.specs.Prelude.{◌≡◌};
ghost use Rattle.wire.specs.Encoding.{encode, buffer_after};
ghost use Rattle.wire.specs.Plain.{plain_packet};
ghost use Rattle.address.specs.Addresses.{good_beside, same_stream, address_answer, packet_of, written, reply_length, reply_buffer};

use answer::Refusal;
use std::convert::Infallible;
use wire::{Body, Packet, TreeId, write};

mod delivery;

pub use delivery::{Accepted, Admitted, Node, REPLY_ROOM, deliver};

// The tree and the stream that a node belongs to, and its number.
#[derive(Clone, Copy)]
pub struct Address {
    pub tree: TreeId,
    pub stream: u16,
    pub number: u16,
}

impl Address {
    // Whether a node can have this address and speak with `other`: the StreamID is at least 32,768, and the two numbers
    // differ, and neither is 0.
    pub fn is_good_beside(self, other: u16) -> bool
        ensures { result ≡ good_beside self other }
    {
        self.stream >= 32768 && self.number > 0 && other > 0 && self.number != other
    }

    fn is_stream_of(self, packet: &Packet<'_>) -> bool
        ensures { result ≡ same_stream self (plain_packet packet.now) }
    {
        packet.tree.is(self.tree) && packet.stream == self.stream
    }

    // Refuses a packet of another tree or stream, then one for another node.
    pub fn check(self, packet: &Packet<'_>) -> Result<(), Refusal>
        ensures { result ≡ address_answer self (plain_packet packet.now) }
    {
        if !self.is_stream_of(packet) {
            return Err(Refusal::OtherStream);
        }
        if packet.addressee != 0 && packet.addressee != self.number {
            return Err(Refusal::OtherAddressee);
        }
        Ok(())
    }

    // Writes a packet of this node to `to`, 0 for all.
    pub fn write_to(self, to: u16, body: Body<Infallible>, out: &mut [u8]) -> Result<usize, Refusal>
        ensures answer { result ≡ written (packet_of self to body) out.old }
        ensures buffer { out.new ≡ buffer_after result (encode (packet_of self to body)) out.old }
    {
        write(
            &Packet::bare(self.tree, self.stream, self.number, to, body),
            out,
        )
    }

    // Writes the reply to a packet's writer, if there is one, and answers its length.
    pub fn write_reply(self, to: u16, reply: Option<Body<Infallible>>, out: &mut [u8]) -> usize
        ensures answer { result ≡ reply_length self to reply out.old }
        ensures buffer { out.new ≡ reply_buffer self to reply out.old }
    {
        let Some(body) = reply else {
            return 0;
        };
        self.write_to(to, body, out).unwrap_or(0)
    }
}
