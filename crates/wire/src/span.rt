// The numbers that a HACK reports on, and the words that hold their flags.
ghost use Rattle.std.specs.Prelude.{◌≡◌, ◌+◌, ◌^◌, ◌-◌, ◌<◌, ◌≤◌, is_some, IfSome};
ghost use Rattle.wire.specs.Flags.{word_count, canonical_word};
ghost use Rattle.wire.specs.Ranges.{hack_fields_in_range, span_in_range, low_flag_clear};

use crate::flags::{flag_is_set, leading_ones};
use std::ops::Range;

// From `lsn` through `hsn`, where these lie in their ranges; none if HSN is LSN - 1.
#[derive(Clone, Copy)]
pub(crate) struct Span {
    pub(crate) lsn: u32,
    pub(crate) hsn: u32,
    ghost first: { 1 ≤ lsn },
    ghost near: { lsn ≤ hsn + 1 },
    ghost far: { hsn ≤ lsn + 255 },
    ghost most: { hsn < 2 ^ 32 - 1 },
}

impl Span {
    fn checked(lsn: u32, hsn: u32) -> Option<Span>
        ensures ranged { is_some result ≡ span_in_range lsn hsn }
        ensures same { IfSome result (λ span. (span.lsn ≡ lsn) × (span.hsn ≡ hsn)) }
    {
        if lsn > 0 && hsn < u32::MAX && lsn <= hsn + 1 && (hsn <= lsn || hsn - lsn <= 255) {
            Some(Span { lsn, hsn })
        } else {
            None
        }
    }

    // The span of a report, unless one of its four fields is outside its range.
    pub(crate) fn of_report(term: u32, serial: u32, lsn: u32, hsn: u32) -> Option<Span>
        ensures ranged { is_some result ≡ hack_fields_in_range term serial lsn hsn }
        ensures same { IfSome result (λ span. (span.lsn ≡ lsn) × (span.hsn ≡ hsn)) }
    {
        if term == 0 || serial == 0 {
            return None;
        }
        Span::checked(lsn, hsn)
    }

    pub(crate) fn numbers(self) -> Range<u32>
        ensures { result ≡ record { start = self.lsn; end = self.hsn + 1 } }
    {
        self.lsn..self.hsn + 1
    }

    // How many words hold the flags.
    pub(crate) fn word_count(self) -> u32
        ensures is { result ≡ word_count self.lsn self.hsn }
        ensures bound { result ≤ 9 }
    {
        if self.hsn < self.lsn {
            0
        } else {
            (self.lsn % 32 + (self.hsn - self.lsn)) / 32 + 1
        }
    }

    // Word `i`, with the positions before LSN set and those after HSN clear.
    pub(crate) fn canonical_word(self, i: u32, word: u32) -> u32
        requires { i < 9 }
        ensures { result ≡ canonical_word self.lsn self.hsn i word }
    {
        let first = self.lsn % 32;
        let before = first.saturating_sub(32 * i);
        let through = (first + (self.hsn + 1 - self.lsn)).saturating_sub(32 * i);
        (word | leading_ones(before.min(32))) & leading_ones(through.min(32))
    }

    // Whether the flag of LSN, where there is one, is clear in the first word.
    pub(crate) fn low_flag_clear(self, word: u32) -> bool
        ensures { result ≡ low_flag_clear self.lsn self.hsn word }
    {
        self.hsn < self.lsn || !flag_is_set(word, self.lsn % 32)
    }
}
