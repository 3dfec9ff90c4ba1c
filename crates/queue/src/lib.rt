// A queue of records over any store: it numbers what is offered, reads it back and releases it.
// All of it is proved from the store's trait alone.
#![tactic(auto)]

ghost use Rattle.std.specs.Prelude.{◌≡◌, length, is_ok};
ghost use Rattle.store.specs.Operations.{copy_answer, copy_buffer};
ghost use Rattle.queue.specs.Queues.{seen, offer_answer, offer_after, release_after, pass_answer, pass_after};

use answer::Refusal;
use store::Store;
use store::checks::{LAST, LONGEST};

// There is no model: `into_store` gives the store itself back, of which a view by its meaning knows less.
#[derive(Drop)]
pub struct Queue<S> {
    store: S,
    highest: u32,
}

impl<S: Store> Queue<S> {
    // A queue over `store`, which numbers its records from 1 on.
    pub fn new(store: S) -> Self
        ensures { seen S.Store.meaning result ≡ record { store = S.Store.meaning store; highest = 0 } }
    {
        Queue { store, highest: 0 }
    }

    // Puts a payload under the next number, and answers that number.
    pub fn offer(&mut self, payload: &[u8]) -> Result<u32, Refusal>
        ensures answer { result ≡ offer_answer (seen S.Store.meaning self.old) payload.now }
        ensures after { seen S.Store.meaning self.new ≡ offer_after (is_ok result) (seen S.Store.meaning self.old) payload.now }
    {
        if self.highest >= LAST {
            return Err(Refusal::Exhausted);
        }
        let number = self.highest + 1;
        self.store.put(number, payload)?;
        self.highest = number;
        Ok(number)
    }

    // Writes the payload of a number to the front of `buffer`, and answers its length.
    pub fn read(&mut self, number: u32, buffer: &mut [u8]) -> Result<usize, Refusal>
        ensures answer { result ≡ copy_answer (S.Store.meaning self.old.store) number (length buffer.old) }
        ensures buffer { buffer.new ≡ copy_buffer (is_ok result) (S.Store.meaning self.old.store) number buffer.old }
        ensures same { seen S.Store.meaning self.new ≡ seen S.Store.meaning self.old }
    {
        self.store.copy(number, buffer)
    }

    // Removes every record through `number`.
    pub fn release(&mut self, number: u32)
        ensures { seen S.Store.meaning self.new ≡ release_after (seen S.Store.meaning self.old) number }
    {
        self.store.forget(number);
    }

    // Hands a record on to an archive, which then holds it too.
    pub fn pass_on<A: Store>(&mut self, number: u32, archive: &mut A) -> Result<(), Refusal>
        ensures answer { result ≡ pass_answer (S.Store.meaning self.old.store) (A.Store.meaning archive.old) number }
        ensures after { A.Store.meaning archive.new ≡ pass_after (is_ok result) (S.Store.meaning self.old.store) (A.Store.meaning archive.old) number }
        ensures same { seen S.Store.meaning self.new ≡ seen S.Store.meaning self.old }
    {
        // a buffer and the length of what lies in it, since no call allocates
        let mut payload = [0u8; LONGEST];
        let len = self.store.copy(number, &mut payload)?;
        archive.put(number, &payload[..len])
    }

    // Gives the store back.
    pub fn into_store(self) -> S
        ensures { result ≡ self.store }
    {
        let Queue { store, .. } = self;
        store
    }
}
