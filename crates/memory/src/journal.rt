// A journal: the records lie end to end from the front of the memory, and forgetting closes the gaps in place.
// It knows the highest number that it has held, so a newer number is known at once to be new.
ghost use Rattle.std.specs.Prelude.{◌≡◌, ℕ, ◌+◌, ◌/◌, ◌<◌, ◌≤◌, true, false, [], ◌∷◌, ◌++◌, length, drop, is_some, IfSome, refl};
ghost use Rattle.std.proofs.Math.Seq.{paste};
ghost use Rattle.store.specs.Pairs.{pair, holds, payload_of, above, in_order, good, distinct};
ghost use Rattle.memory.specs.Records.{records, span};
ghost use Rattle.std.proofs.Common.{arith};
ghost use Rattle.memory.specs.Lengths.{length_records};
ghost use Rattle.store.proofs.Keeping.{sound_in_order};

use super::layout::{HEAD, ROOM, length_of, number_of, payload_of, write_record};
use answer::Refusal;
use store::checks::{check_pair, copy_payload};
use store::{MadeOver, Store};

// `count` records lie in the first `used` bytes; none has a number above `highest`. There is no model: callers see the store
// by the trait's `meaning`, and the functions below speak of the bytes under it. The memory is given once and given
// back whole, so what is used of it is a length beside it.
#[derive(Drop)]
pub struct Journal {
    memory: Vec<u8>,
    used: usize,
    count: usize,
    highest: u32,
    ghost end: { span count memory.items ≡ used },
    ghost within: { used ≤ length memory.items },
    ghost room: { count ≤ length memory.items / 518 },
    ghost distinct: { distinct (records count memory.items) ≡ true },
    ghost top: { (n : ℕ) → highest < n → holds n (records count memory.items) ≡ false },
}

// The payload under `number` among the first `count` records.
fn scan(bytes: &[u8], count: usize, number: u32) -> Option<&[u8]>
    requires { span count bytes.now ≤ length bytes.now }
    ensures test { is_some result ≡ holds number (records count bytes.now) }
    ensures payload { IfSome result (λ p. p.now ≡ payload_of number (records count bytes.now)) }
{
    let mut rest = bytes;
    for _ in 0..count {
        if number_of(rest) == number {
            return Some(payload_of(rest));
        }
        rest = &rest[HEAD + length_of(rest)..];
    }
    None
}

// Moves `size` bytes at `from` down to `to`; where the two are one place, nothing is to be done.
fn move_down(bytes: &mut [u8], from: usize, size: usize, to: usize)
    requires within { from + size ≤ length bytes.old }
    requires down { to ≤ from }
    ensures { bytes.new ≡ paste bytes.old to (drop from bytes.old) size }
{
    if to < from {
        bytes.copy_within(from..from + size, to);
    }
}

// Moves the records above `number` together, and answers how many there are and the bytes that they take.
// Where all stay, no byte moves.
fn compact(bytes: &mut [u8], count: usize, number: u32) -> (usize, usize)
    requires { span count bytes.old ≤ length bytes.old }
    ensures stay { records result.0 bytes.new ≡ above number (records count bytes.old) }
    ensures end { span result.0 bytes.new ≡ result.1 }
    ensures within { result.1 ≤ length bytes.old }
    ensures fewer { result.0 ≤ count }
    ensures still { result.0 ≡ count → bytes.new ≡ bytes.old }
{
    let mut stays = 0;
    let mut to = 0;
    let mut from = 0;
    // `from` and `to` by hand: no iterator lends what the loop moves.
    for _ in 0..count {
        let record = &bytes[from..];
        let size = HEAD + length_of(record);
        if number_of(record) > number {
            move_down(bytes, from, size, to);
            to += size;
            stays += 1;
        }
        from += size;
    }
    (stays, to)
}

impl Journal {
    // The payload under `number`. A number above the highest needs no search.
    fn find(&self, number: u32) -> Option<&[u8]>
        ensures test { is_some result ≡ holds number (records self.now.count self.now.memory.items) }
        ensures payload { IfSome result (λ p. p.now ≡ payload_of number (records self.now.count self.now.memory.items)) }
    {
        if number > self.highest {
            return None;
        }
        scan(&self.memory, self.count, number)
    }

    // Writes a record past the last.
    fn append(&mut self, number: u32, payload: &[u8])
        requires good { good (pair number payload.now) ≡ true }
        requires free { holds number (records self.old.count self.old.memory.items) ≡ false }
        requires room { self.old.count < length self.old.memory.items / 518 }
        ensures after { records self.new.count self.new.memory.items ≡ records self.old.count self.old.memory.items ++ pair number payload.now ∷ [] }
        ensures len { length self.new.memory.items ≡ length self.old.memory.items }
    {
        write_record(&mut self.memory, self.used, number, payload);
        self.used += HEAD + payload.len();
        self.count += 1;
        self.highest = self.highest.max(number);
    }
}

impl Store for Journal {
    ghost meaning = { λ s. record { capacity = length s.memory.items / 518; pairs = in_order (records s.count s.memory.items) } };

    ghost medium = { λ s. s.memory.items };

    ghost sound = { λ s. sound_in_order _ (records s.count s.memory.items) refl s.distinct (omega (arith, length_records s.count s.memory.items, s.room)) };

    fn put(&mut self, number: u32, payload: &[u8]) -> Result<(), Refusal> {
        check_pair(number, payload)?;
        if self.find(number).is_some() {
            return Err(Refusal::Held);
        }
        if self.count == self.memory.len() / ROOM {
            return Err(Refusal::Full);
        }
        self.append(number, payload);
        Ok(())
    }

    fn copy(&mut self, number: u32, buffer: &mut [u8]) -> Result<usize, Refusal> {
        let payload = self.find(number).ok_or(Refusal::NotHeld)?;
        copy_payload(payload, buffer)
    }

    fn has(&mut self, number: u32) -> bool {
        self.find(number).is_some()
    }

    fn forget(&mut self, number: u32) {
        let (count, used) = compact(&mut self.memory, self.count, number);
        self.count = count;
        self.used = used;
    }
}

impl MadeOver for Journal {
    fn new(memory: Vec<u8>) -> Journal {
        Journal {
            memory,
            used: 0,
            count: 0,
            highest: 0,
        }
    }

    fn into_memory(self) -> Vec<u8> {
        self.memory
    }
}
