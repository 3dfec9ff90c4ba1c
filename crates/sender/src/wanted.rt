// The numbers that are to be sent again, as words of 32 flags.
ghost use Rattle.std.specs.Prelude.{◌≡◌, ℕ, false, slice_index};
ghost use Rattle.sender.specs.WantedNumbers.{wants, none_wanted, missing_of};

use std::array;
use wire::{Hack, flag_is_set};

// Word i has the numbers from 32 × (`first` + i) on, the first at the highest bit; 1 where the number is wanted.
#[derive(Clone, Copy)]
pub struct Wanted {
    first: u32,
    words: [u32; 9],
}

impl Wanted {
    #[tactic(auto, using(crate::proofs::Wants::none_wants))]
    pub(crate) fn none() -> Wanted
        ensures is { result ≡ none_wanted }
        ensures nothing { (n : ℕ) → wants result n ≡ false }
    {
        Wanted {
            first: 0,
            words: [0; 9],
        }
    }

    // What a report says is missing.
    #[tactic(auto, unfolding(crate::specs::WantedNumbers::missing_of))]
    pub(crate) fn missing_of(hack: &Hack) -> Wanted
        ensures { result ≡ missing_of hack.now }
    {
        let first = hack.lsn / 32;
        Wanted {
            first,
            words: array::from_fn(|i| hack.missing_word(first + i as u32)),
        }
    }

    // Word `i`, and 0 past the last.
    fn word(self, i: u32) -> u32
        ensures { result ≡ slice_index self.words i }
    {
        self.words.get(i as usize).copied().unwrap_or(0)
    }

    // Whether `number` is to be sent again.
    pub fn wants(self, number: u32) -> bool
        ensures { result ≡ wants self number }
    {
        let block = number / 32;
        block >= self.first && flag_is_set(self.word(block - self.first), number % 32)
    }
}
