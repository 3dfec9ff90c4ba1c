// The body of a HACK in the bytes of a packet.
ghost use Rattle.std.specs.Prelude.{◌≡◌, ◌+◌, ◌-◌, ◌*◌, ◌%◌, ◌^◌, ◌<◌, ◌≤◌, ◌&&◌, length, if◌then◌else◌, Ok, Err};
ghost use Rattle.answer.specs.declared.Refusal.TheVariants.{OutOfRange};
ghost use Rattle.wire.specs.Decoding.{hack_at, hack_counts_agree};
ghost use Rattle.wire.specs.Fields.{short_at, field_at};
ghost use Rattle.wire.specs.Flags.{canonical_words};
ghost use Rattle.wire.specs.Ranges.{hack_in_range};

use crate::fields::{u16_at, u32_at};
use crate::packet::Hack;
use crate::span::Span;
use answer::Refusal;

// The four bytes at `at` as a number, or 0 past the end: a test, and no `get` with an Option that nobody wants.
fn word_at(bytes: &[u8], at: usize) -> u32
    requires near { at < 2 ^ 32 }
    requires whole { at < length bytes.now → at + 4 ≤ length bytes.now }
    ensures { result ≡ field_at bytes.now at }
{
    if at < bytes.len() {
        u32_at(bytes, at)
    } else {
        0
    }
}

// The flag words of a HACK, with the positions outside the span set right.
#[tactic(auto, unfolding(crate::specs::Flags::canonical_words))]
fn flags_at(bytes: &[u8], span: Span) -> [u32; 9]
    requires fields { 38 ≤ length bytes.now }
    requires words { (length bytes.now - 38) % 4 ≡ 0 }
    ensures { result ≡ canonical_words span.lsn span.hsn (λ i. field_at bytes.now (38 + 4 * i)) }
{
    std::array::from_fn(|i| span.canonical_word(i as u32, word_at(bytes, 38 + 4 * i)))
}

// The HACK, unless a field is outside its range or does not agree with the others.
pub(crate) fn hack_at(bytes: &[u8]) -> Result<Hack, Refusal>
    requires { length bytes.now ≡ 38 + 4 * short_at bytes.now 36 }
    ensures { result ≡ (if hack_counts_agree bytes.now && hack_in_range (hack_at bytes.now) then Ok (hack_at bytes.now) else Err OutOfRange) }
{
    let term = u32_at(bytes, 16);
    let serial = u32_at(bytes, 20);
    let lsn = u32_at(bytes, 24);
    let hsn = u32_at(bytes, 28);
    let span = Span::of_report(term, serial, lsn, hsn).ok_or(Refusal::OutOfRange)?;
    if u32_at(bytes, 32) != lsn - 1 || u16_at(bytes, 36) as u32 != span.word_count() {
        return Err(Refusal::OutOfRange);
    }
    let flags = flags_at(bytes, span);
    if !span.low_flag_clear(flags[0]) {
        return Err(Refusal::OutOfRange);
    }
    Ok(Hack {
        term,
        serial,
        lsn,
        hsn,
        flags,
    })
}
