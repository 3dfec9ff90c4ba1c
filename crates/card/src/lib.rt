// A worked example for makers of memory cards: a store with room for one record, and its proof.
#![tactic(auto)]

ghost use Rattle.std.specs.Prelude.{◌≡◌, ◌≤◌, true, [], ◌∷◌, ◌++◌, length, drop, nat_le, is_some, IfSome};
ghost use Rattle.std.specs.Option.{ForSome};
ghost use Rattle.store.specs.Pairs.{pair, good, distinct, holds, payload_of};
ghost use Rattle.card.specs.Cards.{card_capacity, card_pairs, card_meaning};
ghost use Rattle.std.proofs.Common.{rules};

use answer::Refusal;
use store::Store;
use store::checks::{LONGEST, check_pair, copy_payload};

// A record on the card: its number, and how many bytes at the front of the memory are its payload.
#[derive(Clone, Copy)]
struct Held {
    number: u32,
    len: usize,
}

// There is no model: callers see the card by the trait's `meaning`. The memory is given once, so the payload's length stands
// beside it.
#[derive(Drop)]
pub struct Card {
    memory: Vec<u8>,
    held: Option<Held>,
    ghost within: { ForSome held (λ h. h.len ≤ length memory.items) },
    ghost distinct: { distinct (card_pairs held memory.items) ≡ true },
    ghost room: { nat_le (length (card_pairs held memory.items)) (card_capacity memory.items) ≡ true },
}

// Writes `payload` to the front of `bytes`.
fn write_front(bytes: &mut [u8], payload: &[u8])
    requires { length payload.now ≤ length bytes.old }
    ensures { bytes.new ≡ payload.now ++ drop (length payload.now) bytes.old }
{
    bytes[..payload.len()].copy_from_slice(payload);
}

impl Card {
    // An empty card over memory of any length.
    pub fn new(memory: Vec<u8>) -> Card
        ensures { card_meaning result.held result.memory.items ≡ record { capacity = card_capacity memory.items; pairs = [] } }
    {
        Card { memory, held: None }
    }

    // The payload under `number`.
    fn find(&self, number: u32) -> Option<&[u8]>
        ensures test { is_some result ≡ holds number (card_pairs self.now.held self.now.memory.items) }
        ensures payload { IfSome result (λ p. p.now ≡ payload_of number (card_pairs self.now.held self.now.memory.items)) }
    {
        match self.held {
            Some(held) if held.number == number => Some(&self.memory[..held.len]),
            _ => None,
        }
    }

    // Writes a record to the card, over what it holds.
    fn write(&mut self, number: u32, payload: &[u8])
        requires good { good (pair number payload.now) ≡ true }
        requires room { 512 ≤ length self.old.memory.items }
        ensures after { card_meaning self.new.held self.new.memory.items ≡ record { capacity = card_capacity self.old.memory.items; pairs = pair number payload.now ∷ [] } }
        ensures size { length self.new.memory.items ≡ length self.old.memory.items }
    {
        write_front(&mut self.memory, payload);
        let len = payload.len();
        self.held = Some(Held { number, len });
    }
}

impl Store for Card {
    ghost meaning = { λ s. card_meaning s.held s.memory.items };

    ghost medium = { λ s. s.memory.items };

    ghost sound = { Prim.search rules };

    fn put(&mut self, number: u32, payload: &[u8]) -> Result<(), Refusal> {
        check_pair(number, payload)?;
        if self.find(number).is_some() {
            return Err(Refusal::Held);
        }
        if self.held.is_some() || self.memory.len() < LONGEST {
            return Err(Refusal::Full);
        }
        self.write(number, payload);
        Ok(())
    }

    fn copy(&mut self, number: u32, buffer: &mut [u8]) -> Result<usize, Refusal> {
        let payload = self.find(number).ok_or(Refusal::NotHeld)?;
        copy_payload(payload, buffer)
    }

    fn has(&mut self, number: u32) -> bool {
        self.find(number).is_some()
    }

    fn forget(&mut self, number: u32) {
        if self.held.is_some_and(|held| held.number <= number) {
            self.held = None;
        }
    }
}
