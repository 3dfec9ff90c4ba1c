// What a sender makes of the reports of the top.
ghost use Rattle.std.specs.Prelude.{◌≡◌, Bool, is_ok};
ghost use Rattle.store.specs.Pairs.{Meaning};
ghost use Rattle.wire.specs.Plain.{plain_packet};
ghost use Rattle.sender.specs.declared.sender.Sender.{Sender};
ghost use Rattle.sender.specs.Senders.{sender_seen, report_from, is_fresh, accepts_report, sender_answer, sender_after, sender_buffer, WantsTheMissing, SenderSound};

use crate::phase::Phase;
use crate::sender::Sender;
use crate::wanted::Wanted;
use address::{Accepted, Address, Admitted, Node, deliver};
use answer::{Delivered, Outcome, Refusal};
use store::Store;
use wire::{Body, Hack, Packet};

impl<Q: Store, P: Phase> Sender<Q, P> {
    // Whether a report is of the top's only term and newer than the last one taken, and neither takes a release back nor
    // speaks of numbers that were never offered.
    fn is_fresh(&self, hack: &Hack) -> bool
        ensures { result ≡ is_fresh (sender_seen Q.meaning P.ended self.now) hack.now }
    {
        hack.term == 1
            && hack.serial > self.serial
            && hack.lsn.saturating_sub(1) >= self.released
            && hack.hsn <= self.highest
    }

    // Takes a fresh report: what it vouches for is released, and what it misses replaces all that was wanted.
    fn take(&mut self, hack: &Hack) -> Outcome
        ensures answer { result ≡ (accepts_report (sender_seen Q.meaning P.ended self.old) 0 hack.now).outcome }
        ensures after { sender_seen Q.meaning P.ended self.new ≡ (accepts_report (sender_seen Q.meaning P.ended self.old) 0 hack.now).node }
    {
        if !self.is_fresh(hack) {
            return Outcome::Stale;
        }
        let stable = hack.lsn.saturating_sub(1);
        self.serial = hack.serial;
        self.released = stable;
        self.wanted = Wanted::missing_of(hack);
        self.queue.forget(stable);
        Outcome::Taken
    }

    // What the sender makes of bytes from the channel. There is never a reply, but the buffer must have room for one.
    pub fn deliver(&mut self, bytes: &[u8], reply: &mut [u8]) -> Result<Delivered, Refusal>
        ensures answer { result ≡ sender_answer (sender_seen Q.meaning P.ended self.old) bytes.now reply.old }
        ensures after { sender_seen Q.meaning P.ended self.new ≡ sender_after (is_ok result) (sender_seen Q.meaning P.ended self.old) bytes.now }
        ensures buffer { reply.new ≡ sender_buffer (is_ok result) (sender_seen Q.meaning P.ended self.old) bytes.now reply.old }
        ensures wants { WantsTheMissing bytes.now result self.new.wanted }
        ensures keeps { SenderSound (sender_seen Q.meaning P.ended self.old) → SenderSound (sender_seen Q.meaning P.ended self.new) }
    {
        deliver(self, 0, bytes, reply)
    }
}

impl<Q: Store, P: Phase> Node for Sender<Q, P> {
    type Incoming = Hack;

    ghost Seen = { Sender Meaning Bool };

    ghost seen = { sender_seen Q.meaning P.ended };

    ghost own = { λ s. s.address };

    ghost takes = { λ s. report_from s.top };

    ghost accepts = { λ _ s. accepts_report s };

    fn address(&self) -> Address {
        self.address
    }

    // The report in a packet, if the top wrote it.
    fn known(&self, packet: &Packet<'_>) -> Option<Hack> {
        match packet.body {
            Body::Hack(hack) if packet.writer == self.top => Some(hack),
            _ => None,
        }
    }

    fn accept(&mut self, _clock: u32, packet: Admitted<Self, Hack>) -> Accepted
        ensures after { sender_seen Q.meaning P.ended self.new ≡ (accepts_report (sender_seen Q.meaning P.ended self.old) packet.writer packet.incoming).node }
        ensures outcome { result.outcome ≡ (accepts_report (sender_seen Q.meaning P.ended self.old) packet.writer packet.incoming).outcome }
        ensures reply { result.reply ≡ (accepts_report (sender_seen Q.meaning P.ended self.old) packet.writer packet.incoming).reply }
    {
        let (_writer, hack) = packet.open();
        Accepted {
            outcome: self.take(&hack),
            reply: None,
        }
    }
}
