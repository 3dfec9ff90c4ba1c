// The body of a HACK, written.
ghost use Rattle.std.specs.Prelude.{◌≡◌, ◌+◌, ◌*◌, ◌≤◌, true, length, take, slice_index};
ghost use Rattle.std.specs.List.{flat_map};
ghost use Rattle.wire.specs.Encoding.{hack_bytes};
ghost use Rattle.wire.specs.Fields.{field_bytes, overwrite};
ghost use Rattle.wire.specs.Flags.{word_count, canonical_words};
ghost use Rattle.wire.specs.Laws.{HackFits};
ghost use Rattle.wire.specs.Ranges.{hack_fields_in_range};

use crate::fields::put;
use crate::packet::Hack;
use crate::span::Span;

// The flag words, from the front of `out` on. They are passed by value: the compiler cannot know that `out` is not where
// the HACK lies.
fn write_words(span: Span, flags: [u32; 9], out: &mut [u8])
    requires { 4 * word_count span.lsn span.hsn ≤ length out.old }
    ensures { out.new ≡ overwrite 0 (flat_map field_bytes (take (word_count span.lsn span.hsn) (canonical_words span.lsn span.hsn (λ i. slice_index flags i)))) out.old }
{
    let count = span.word_count() as usize;
    for (i, word) in flags[..count].iter().enumerate() {
        put(
            out,
            4 * i,
            span.canonical_word(i as u32, *word).to_be_bytes(),
        );
    }
}

// The fields, then the words: for these the buffer is lent from byte 38 on.
pub(crate) fn write_hack(hack: &Hack, out: &mut [u8])
    requires ranged { hack_fields_in_range hack.now.term hack.now.serial hack.now.lsn hack.now.hsn ≡ true }
    requires room { 38 + 4 * word_count hack.now.lsn hack.now.hsn ≤ length out.old }
    ensures after { out.new ≡ overwrite 16 (hack_bytes hack.now) out.old }
    ensures typed { HackFits hack.now }
{
    let span = Span {
        lsn: hack.lsn,
        hsn: hack.hsn,
    };
    put(out, 16, hack.term.to_be_bytes());
    put(out, 20, hack.serial.to_be_bytes());
    put(out, 24, hack.lsn.to_be_bytes());
    put(out, 28, hack.hsn.to_be_bytes());
    put(out, 32, (hack.lsn - 1).to_be_bytes());
    put(out, 36, (span.word_count() as u16).to_be_bytes());
    write_words(span, hack.flags, &mut out[38..]);
}
