// What a sender writes of its own accord: payloads under rising numbers, and how far they go.
ghost use Rattle.std.specs.Prelude.{◌≡◌, is_ok, Err, ◌≢◌};
ghost use Rattle.answer.specs.declared.Refusal.TheVariants.{OutOfRange};
ghost use Rattle.wire.specs.Encoding.{encode, buffer_after};
ghost use Rattle.address.specs.Addresses.{written};
ghost use Rattle.sender.specs.Senders.{sender_seen, open_seen, offer_packet, offer_answer, offer_after, announce_packet, SenderSound};

use crate::phase::{Phase, StillOpen};
use crate::sender::Sender;
use answer::Refusal;
use store::Store;
use store::checks::{LAST, LONGEST};
use wire::{Body, Message, check_write, write};

// How many payloads can be on their way: a report has flags for as many.
const WINDOW: u32 = 256;

impl<Q: Store> Sender<Q, StillOpen> {
    // Queues a payload under the next number and writes it to all.
    pub fn offer(&mut self, payload: &[u8], out: &mut [u8]) -> Result<usize, Refusal>
        ensures answer { result ≡ offer_answer (open_seen Q.Store.meaning self.old) payload.now out.old }
        ensures after { open_seen Q.Store.meaning self.new ≡ offer_after (is_ok result) (open_seen Q.Store.meaning self.old) payload.now }
        ensures buffer { out.new ≡ buffer_after result (encode (offer_packet (open_seen Q.Store.meaning self.old) payload.now)) out.old }
        ensures keeps { SenderSound (open_seen Q.Store.meaning self.old) → SenderSound (open_seen Q.Store.meaning self.new) }
        ensures in_range { SenderSound (open_seen Q.Store.meaning self.old) → result ≢ Err OutOfRange }
    {
        // The store's test, under a refusal of its own.
        if payload.is_empty() || payload.len() > LONGEST {
            return Err(Refusal::BadPayload);
        }
        if self.highest.saturating_sub(self.released) >= WINDOW {
            return Err(Refusal::WindowFull);
        }
        if self.highest >= LAST {
            return Err(Refusal::Exhausted);
        }
        let number = self.highest + 1;
        // Spelled out, since `write_to` writes bodies without a payload.
        let packet = Message {
            tree: self.address.tree,
            stream: self.address.stream,
            writer: self.address.number,
            addressee: 0,
            body: Body::Data { number, payload },
        };
        // The room comes before the queue: an offer that is refused changes nothing.
        check_write(&packet, out)?;
        self.queue.put(number, payload).map_err(|_| Refusal::Full)?;
        self.highest = number;
        write(&packet, out)
    }
}

impl<Q: Store, P: Phase> Sender<Q, P> {
    // Writes to all how far the numbers go, and whether that is the end.
    pub fn announce(&self, out: &mut [u8]) -> Result<usize, Refusal>
        ensures answer { result ≡ written (announce_packet (sender_seen Q.Store.meaning P.Phase.ended self.now)) out.old }
        ensures buffer { out.new ≡ buffer_after result (encode (announce_packet (sender_seen Q.Store.meaning P.Phase.ended self.now))) out.old }
        ensures in_range { SenderSound (sender_seen Q.Store.meaning P.Phase.ended self.now) → result ≢ Err OutOfRange }
    {
        self.address
            .write_to(0, self.phase.announcement(self.highest), out)
    }
}
