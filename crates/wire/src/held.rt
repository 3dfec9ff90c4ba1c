// What a HACK says of single numbers: which are held, and which are missing.
ghost use Rattle.std.specs.Prelude.{◌≡◌, ◌-◌, ◌≤◌, min, true, false, MatchResult, length, ◌==◌, slice_index};
ghost use Rattle.wire.specs.Fields.{overwrite};
ghost use Rattle.wire.specs.Flags.{flag_of, held_by, is_missing, leading_ones, word_from, missing_numbers};
ghost use Rattle.answer.specs.declared.Refusal.TheVariants.{OutOfRange};
ghost use Rattle.wire.specs.Ranges.{hack_in_range};
ghost use Rattle.wire.specs.Encoding.{write_answer, buffer_after};

use crate::flags::{flag_is_set, leading_ones};
use crate::packet::Hack;
use crate::span::Span;
use answer::Refusal;

// Word `i` of the nine, and 0 past these.
fn word_at(flags: [u32; 9], i: usize) -> u32
    ensures { result ≡ slice_index flags i }
{
    flags.get(i).copied().unwrap_or(0)
}

// Whether `number`, at or above `lsn`, has its flag set.
fn is_flagged(lsn: u32, flags: [u32; 9], number: u32) -> bool
    requires { lsn ≤ number }
    ensures { result ≡ (flag_of lsn flags number == 1) }
{
    let index = ((lsn % 32) as usize + (number - lsn) as usize) / 32;
    flag_is_set(word_at(flags, index), number % 32)
}

// The word whose first positions, as many as there are numbers from `from` on that lie below `to`, are set.
fn ones_below(to: u64, from: u64) -> u32
    ensures { result ≡ leading_ones (min 32 (to - from)) }
{
    leading_ones(to.saturating_sub(from).min(32) as u32)
}

// How many numbers are missing. That the span is the report's stands here and below, and in no struct of the two: only these
// two functions would read it. They are counted first, so that a refusal writes nothing.
#[tactic(auto, unfolding(crate::specs::Flags::missing_numbers))]
fn count_missing(hack: &Hack, span: Span) -> usize
    requires low { span.lsn ≡ hack.now.lsn }
    requires high { span.hsn ≡ hack.now.hsn }
    ensures { result ≡ length (missing_numbers hack.now) }
{
    span.numbers().filter(|number| !hack.holds(*number)).count()
}

fn write_missing(hack: &Hack, span: Span, numbers: &mut [u32])
    requires low { span.lsn ≡ hack.now.lsn }
    requires high { span.hsn ≡ hack.now.hsn }
    requires room { length (missing_numbers hack.now) ≤ length numbers.old }
    ensures { numbers.new ≡ overwrite 0 (missing_numbers hack.now) numbers.old }
{
    let missing = span.numbers().filter(|number| !hack.holds(*number));
    // By number: after a borrow by `iter_mut` no proof knows the numbers.
    for (i, number) in missing.enumerate() {
        numbers[i] = number;
    }
}

impl Hack {
    // The numbers from LSN through HSN, unless a field is outside its range.
    pub(crate) fn ranged_span(&self) -> Result<Span, Refusal>
        ensures { MatchResult result (λ span. (span.lsn ≡ self.now.lsn) × (span.hsn ≡ self.now.hsn) × (hack_in_range self.now ≡ true)) (λ e. (e ≡ OutOfRange) × (hack_in_range self.now ≡ false)) }
    {
        let span = Span::of_report(self.term, self.serial, self.lsn, self.hsn).ok_or(
            Refusal::OutOfRange,
        )?;
        if span.low_flag_clear(self.flags[0]) {
            Ok(span)
        } else {
            Err(Refusal::OutOfRange)
        }
    }

    // The flags of the 32 numbers from 32 × `block` on, the first at the highest bit: set where the report says that the number is held.
    pub fn word(&self, block: u32) -> u32
        ensures { result ≡ word_from (held_by self.now) block }
    {
        let first = self.lsn / 32;
        if block < first {
            return u32::MAX;
        }
        let word = word_at(self.flags, (block - first) as usize);
        let from = 32 * block as u64;
        (word & ones_below(self.hsn as u64 + 1, from)) | ones_below(self.lsn as u64, from)
    }

    // The flags of the same 32 numbers, set where the report says that the number is missing.
    pub fn missing_word(&self, block: u32) -> u32
        ensures { result ≡ word_from (is_missing self.now) block }
    {
        !self.word(block) & ones_below(self.hsn as u64 + 1, 32 * block as u64)
    }

    // Whether the report says that `number` is held: all below LSN are, and of LSN to HSN those with their flag set.
    pub fn holds(&self, number: u32) -> bool
        ensures { result ≡ held_by self.now number }
    {
        number < self.lsn || (number <= self.hsn && is_flagged(self.lsn, self.flags, number))
    }

    // Writes the numbers that are missing, in order, to the front of `numbers`, and tells how many; places beyond remain.
    pub fn missing(&self, numbers: &mut [u32]) -> Result<usize, Refusal>
        ensures answer { result ≡ write_answer (hack_in_range self.now) (missing_numbers self.now) numbers.old }
        ensures buffer { numbers.new ≡ buffer_after result (missing_numbers self.now) numbers.old }
    {
        let span = self.ranged_span()?;
        let count = count_missing(self, span);
        if numbers.len() < count {
            return Err(Refusal::ShortOutput);
        }
        write_missing(self, span, numbers);
        Ok(count)
    }
}
