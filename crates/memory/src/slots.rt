// A slot store: slots of one size, each with a record or free. A number's home is the slot that it picks by its
// remainder; while every record lies at home, one look tells whether a number is held.
ghost use Rattle.std.specs.Prelude.{◌≡◌, ℕ, ◌+◌, ◌*◌, ◌/◌, ◌%◌, ◌<◌, ◌≤◌, true, false, [], length, drop, slice_index, is_some, IfSome, nat_lt, refl};
ghost use Rattle.store.specs.Pairs.{pair, holds, payload_of, add, above, in_order, good, distinct};
ghost use Rattle.memory.specs.Records.{length_of};
ghost use Rattle.memory.specs.Slots.{slot_count, slot, one, slots, slot_pairs, Short, Homed};
ghost use Rattle.store.proofs.Keeping.{sound_in_order};
ghost use Rattle.memory.specs.Lengths.{length_slots};

use super::layout::{ROOM, length_of, number_of, payload_of, write_record};
use answer::Refusal;
use store::checks::{check_pair, copy_payload};
use store::{MadeOver, Store};

// `used` slots have a record; `homed` tells that each of these lies at home, so it is no sign of a value beside it. There is
// no model: callers see the store by the trait's `meaning`, and the functions below speak of the bytes under it.
#[derive(Drop)]
pub struct SlotStore {
    memory: Vec<u8>,
    used: usize,
    homed: bool,
    ghost short: { Short (slot_count memory.items) memory.items },
    ghost distinct: { distinct (slot_pairs memory.items) ≡ true },
    ghost counted: { used ≡ length (slot_pairs memory.items) },
    ghost homes: { homed ≡ true → Homed (slot_count memory.items) (slot_count memory.items) memory.items },
}

// Frees each of the slots, and writes no byte past a slot's first six. By number, as `free_through`.
fn free_all(bytes: &mut [u8])
    ensures short { Short (slot_count bytes.old) bytes.new }
    ensures empty { slots (slot_count bytes.old) bytes.new ≡ [] }
    ensures stay { (i : ℕ) → 6 ≤ i % 518 → slice_index bytes.new i ≡ slice_index bytes.old i }
    ensures rest { drop (slot_count bytes.old * 518) bytes.new ≡ drop (slot_count bytes.old * 518) bytes.old }
{
    for k in 0..bytes.len() / ROOM {
        write_record(bytes, k * ROOM, 0, &[]);
    }
}

// Tells whether a slot holds `number`.
fn slot_holds(slot: &[u8], number: u32) -> bool
    requires { 6 ≤ length slot.now }
    ensures { result ≡ holds number (one slot.now) }
{
    length_of(slot) > 0 && number_of(slot) == number
}

// The payload under `number`, by a look at each slot.
fn scan(bytes: &[u8], number: u32) -> Option<&[u8]>
    requires short { Short (slot_count bytes.now) bytes.now }
    requires distinct { distinct (slot_pairs bytes.now) ≡ true }
    ensures test { is_some result ≡ holds number (slot_pairs bytes.now) }
    ensures payload { IfSome result (λ p. p.now ≡ payload_of number (slot_pairs bytes.now)) }
{
    for slot in bytes.chunks_exact(ROOM) {
        if slot_holds(slot, number) {
            return Some(payload_of(slot));
        }
    }
    None
}

// A free slot, by a look at each.
fn scan_free(bytes: &[u8]) -> Option<usize>
    ensures test { is_some result ≡ nat_lt (length (slot_pairs bytes.now)) (slot_count bytes.now) }
    ensures place { IfSome result (λ i. (i < slot_count bytes.now) × (length_of (slot i bytes.now) ≡ 0)) }
{
    for (i, slot) in bytes.chunks_exact(ROOM).enumerate() {
        if length_of(slot) == 0 {
            return Some(i);
        }
    }
    None
}

// The slot that `number` picks among `count`.
fn home(number: u32, count: usize) -> usize
    requires { 0 < count }
    ensures { result ≡ number % count }
{
    number as usize % count
}

// Frees each slot whose number is at most `number`. Answers how many keep a record, and whether each of these lies
// at home. Where all keep theirs, no byte is written.
fn free_through(bytes: &mut [u8], number: u32) -> (usize, bool)
    requires { Short (slot_count bytes.old) bytes.old }
    ensures short { Short (slot_count bytes.old) bytes.new }
    ensures after { slots (slot_count bytes.old) bytes.new ≡ above number (slot_pairs bytes.old) }
    ensures counted { result.0 ≡ length (slots (slot_count bytes.old) bytes.new) }
    ensures homes { result.1 ≡ true → Homed (slot_count bytes.old) (slot_count bytes.old) bytes.new }
    ensures still { result.0 ≡ length (slot_pairs bytes.old) → bytes.new ≡ bytes.old }
{
    let count = bytes.len() / ROOM;
    let mut used = 0;
    let mut homed = true;
    // By number: after a borrow by `chunks_exact_mut` no proof knows the bytes.
    for i in 0..count {
        let slot = &bytes[i * ROOM..];
        if length_of(slot) > 0 {
            let held = number_of(slot);
            if held <= number {
                write_record(bytes, i * ROOM, 0, &[]);
            } else {
                used += 1;
                homed &= home(held, count) == i;
            }
        }
    }
    (used, homed)
}

impl SlotStore {
    // The payload under `number`: at home, or else, unless all lie at home, by a look at each slot.
    fn find(&self, number: u32) -> Option<&[u8]>
        ensures test { is_some result ≡ holds number (slot_pairs self.now.memory.items) }
        ensures payload { IfSome result (λ p. p.now ≡ payload_of number (slot_pairs self.now.memory.items)) }
    {
        let count = self.memory.len() / ROOM;
        if count == 0 {
            return None;
        }
        let slot = &self.memory[home(number, count) * ROOM..];
        if slot_holds(slot, number) {
            return Some(payload_of(slot));
        }
        if self.homed {
            return None;
        }
        scan(&self.memory, number)
    }

    // A free slot, the home of `number` if that is free.
    fn find_free(&self, number: u32) -> Option<usize>
        ensures test { is_some result ≡ nat_lt (length (slot_pairs self.now.memory.items)) (slot_count self.now.memory.items) }
        ensures place { IfSome result (λ i. (i < slot_count self.now.memory.items) × (length_of (slot i self.now.memory.items) ≡ 0)) }
    {
        let count = self.memory.len() / ROOM;
        if self.used >= count {
            return None;
        }
        let i = home(number, count);
        if length_of(&self.memory[i * ROOM..]) == 0 {
            return Some(i);
        }
        scan_free(&self.memory)
    }

    // Writes a record to the free slot `i`.
    fn place(&mut self, i: usize, number: u32, payload: &[u8])
        requires good { good (pair number payload.now) ≡ true }
        requires free { holds number (slot_pairs self.old.memory.items) ≡ false }
        requires within { i < slot_count self.old.memory.items }
        requires empty { length_of (slot i self.old.memory.items) ≡ 0 }
        ensures after { in_order (slot_pairs self.new.memory.items) ≡ add (pair number payload.now) (in_order (slot_pairs self.old.memory.items)) }
        ensures len { length self.new.memory.items ≡ length self.old.memory.items }
    {
        let count = self.memory.len() / ROOM;
        write_record(&mut self.memory, i * ROOM, number, payload);
        self.used += 1;
        self.homed &= home(number, count) == i;
    }
}

impl Store for SlotStore {
    ghost meaning = { λ s. record { capacity = slot_count s.memory.items; pairs = in_order (slot_pairs s.memory.items) } };

    ghost medium = { λ s. s.memory.items };

    ghost sound = { λ s.
        let bs = s.memory.items in
        sound_in_order _ (slot_pairs bs) refl s.distinct (length_slots (slot_count bs) bs) };

    fn put(&mut self, number: u32, payload: &[u8]) -> Result<(), Refusal> {
        check_pair(number, payload)?;
        if self.find(number).is_some() {
            return Err(Refusal::Held);
        }
        let i = self.find_free(number).ok_or(Refusal::Full)?;
        self.place(i, number, payload);
        Ok(())
    }

    fn copy(&mut self, number: u32, buffer: &mut [u8]) -> Result<usize, Refusal> {
        let payload = self.find(number).ok_or(Refusal::NotHeld)?;
        copy_payload(payload, buffer)
    }

    fn has(&mut self, number: u32) -> bool {
        self.find(number).is_some()
    }

    fn forget(&mut self, number: u32) {
        let (used, homed) = free_through(&mut self.memory, number);
        self.used = used;
        self.homed = homed;
    }
}

impl MadeOver for SlotStore {
    fn new(mut memory: Vec<u8>) -> SlotStore {
        free_all(&mut memory);
        SlotStore {
            memory,
            used: 0,
            homed: true,
        }
    }

    fn into_memory(self) -> Vec<u8> {
        self.memory
    }
}
