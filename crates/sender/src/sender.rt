// A sender: its state, its making and its end.
ghost use Rattle.std.specs.Prelude.{◌≡◌, Ok};
ghost use Rattle.sender.specs.Senders.{open_seen, ended_seen, check_answer, new_sender, ended_after, SenderSound};

use crate::phase::{AtEnd, Phase, StillOpen};
use crate::wanted::Wanted;
use address::Address;
use store::Store;

// `highest` is the last number offered; every number through `released` has been released; `serial` is that of the
// last report taken. There is no model: a clause may ask for the queue itself, and the meaning of the queue, by which
// `sender_seen` reads the rest, comes only with the bound `Store`.
// `SenderSound` is no invariant: `new` takes any address, since no public function has a `requires`.
#[derive(Drop)]
pub struct Sender<Q, P> {
    pub(crate) address: Address,
    pub(crate) top: u16,
    pub(crate) highest: u32,
    pub(crate) released: u32,
    pub(crate) serial: u32,
    pub(crate) wanted: Wanted,
    pub(crate) queue: Q,
    pub(crate) phase: P,
}

pub type Open<Q> = Sender<Q, StillOpen>;

pub type Ended<Q> = Sender<Q, AtEnd>;

impl<Q: Store> Sender<Q, StillOpen> {
    // A sender that has offered nothing. It refuses nothing, since `check` comes first.
    pub fn new(address: Address, top: u16, queue: Q) -> Open<Q>
        ensures is { open_seen Q.Store.meaning result ≡ new_sender address top (Q.Store.meaning queue) }
        ensures same { result.queue ≡ queue }
        ensures sound { check_answer address top ≡ Ok tt → SenderSound (open_seen Q.Store.meaning result) }
    {
        Sender {
            address,
            top,
            highest: 0,
            released: 0,
            serial: 0,
            wanted: Wanted::none(),
            queue,
            phase: StillOpen,
        }
    }

    // Ends the stream. An ended sender has neither `offer` nor `end`.
    pub fn end(self) -> Ended<Q>
        ensures is { ended_seen Q.Store.meaning result ≡ ended_after (open_seen Q.Store.meaning self) }
        ensures same { result.queue ≡ self.queue }
        ensures keeps { SenderSound (open_seen Q.Store.meaning self) → SenderSound (ended_seen Q.Store.meaning result) }
    {
        // Field by field, since `..self` would have to keep the type of the phase.
        Sender {
            address: self.address,
            top: self.top,
            highest: self.highest,
            released: self.released,
            serial: self.serial,
            wanted: self.wanted,
            queue: self.queue,
            phase: AtEnd,
        }
    }
}

impl<Q: Store, P: Phase> Sender<Q, P> {
    // The number of this node.
    pub fn number(&self) -> u16
        ensures { result ≡ self.now.address.number }
    {
        self.address.number
    }

    // The last number offered, or 0 for none.
    pub fn highest(&self) -> u32
        ensures { result ≡ self.now.highest }
    {
        self.highest
    }

    // Every number through this one has been released.
    pub fn released(&self) -> u32
        ensures { result ≡ self.now.released }
    {
        self.released
    }

    // The numbers that are to be sent again.
    pub fn wanted(&self) -> Wanted
        ensures { result ≡ self.now.wanted }
    {
        self.wanted
    }
}

impl<Q: Store, P: Drop> Sender<Q, P> {
    // Gives the queue back, as it is.
    pub fn into_queue(self) -> Q
        ensures { result ≡ self.queue }
    {
        self.queue
    }
}
