// Stores of numbered payloads: what a store means, and the trait by which one is shown to be a store.
#![tactic(auto)]

ghost use Rattle.std.specs.Prelude.{◌≡◌, ℕ, ◌/◌, false, List, [], length, is_ok, vec_len};
ghost use Rattle.store.specs.Pairs.{Meaning, Sound, holds};
ghost use Rattle.store.specs.Operations.{put_answer, put_after, copy_answer, copy_buffer, forget_after};

use answer::Refusal;

pub mod checks;
pub mod lowest;

// Numbers with their payloads, at most as many as the capacity. `meaning` is all that code above a store may
// rely on; which bytes of the medium carry it, and what the others are, is free. `has` and `copy` have no body here, since a
// store need not lie in memory, and none can be asked to lend a payload. A number and its payload are two
// parameters, as the key and the value are at a map's `insert`.
pub trait Store {
    ghost meaning: { Self → Meaning };

    // the bytes that the store is kept in; there are always as many, which each method says, since it ties before and after
    ghost medium: { Self → List ℕ };

    // Adds a pair. A refused put changes no byte.
    fn put(&mut self, number: u32, payload: &[u8]) -> Result<(), Refusal>
        ensures answer { result ≡ put_answer (meaning self.old) number payload.now }
        ensures after { meaning self.new ≡ put_after (is_ok result) (meaning self.old) number payload.now }
        ensures still { is_ok result ≡ false → medium self.new ≡ medium self.old }
        ensures size { length (medium self.new) ≡ length (medium self.old) };

    // Writes the payload of a number to the front of `buffer`, and answers its length.
    fn copy(&mut self, number: u32, buffer: &mut [u8]) -> Result<usize, Refusal>
        ensures answer { result ≡ copy_answer (meaning self.old) number (length buffer.old) }
        ensures buffer { buffer.new ≡ copy_buffer (is_ok result) (meaning self.old) number buffer.old }
        ensures same { meaning self.new ≡ meaning self.old }
        ensures size { length (medium self.new) ≡ length (medium self.old) };

    // Tells whether a number is held.
    fn has(&mut self, number: u32) -> bool
        ensures answer { result ≡ holds number (meaning self.old).pairs }
        ensures same { meaning self.new ≡ meaning self.old }
        ensures size { length (medium self.new) ≡ length (medium self.old) };

    // Removes every number up to the given one. Where there is none, it changes no byte.
    fn forget(&mut self, number: u32)
        ensures after { meaning self.new ≡ forget_after (meaning self.old) number }
        ensures still { meaning self.new ≡ meaning self.old → medium self.new ≡ medium self.old }
        ensures size { length (medium self.new) ≡ length (medium self.old) };

    ghost sound: { (s : Self) → Sound (meaning s) };
}

// A store that is made over memory given to it: it starts empty, with room for one pair in each 518 bytes.
pub trait MadeOver: Store + Sized {
    fn new(memory: Vec<u8>) -> Self
        ensures empty { Self.Store.meaning result ≡ record { capacity = vec_len memory / 518; pairs = [] } }
        ensures size { length (Self.Store.medium result) ≡ vec_len memory };

    // Gives the memory back, as it is.
    fn into_memory(self) -> Vec<u8>
        ensures bytes { result.items ≡ Self.Store.medium self }
        ensures room { vec_len result / 518 ≡ (Self.Store.meaning self).capacity };
}
