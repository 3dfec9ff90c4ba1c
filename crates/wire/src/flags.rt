// The flags of a word, of which position 0 is the highest bit.
ghost use Rattle.std.specs.Prelude.{◌≡◌, ◌≤◌, ◌==◌, ◌&&◌, nat_lt};
ghost use Rattle.wire.specs.Flags.{flag_at, leading_ones};

// Whether the flag at a position is set; a word has none from position 32 on.
pub fn flag_is_set(word: u32, position: u32) -> bool
    ensures { result ≡ (nat_lt position 32 && flag_at word position == 1) }
{
    position < 32 && (word >> (31 - position)) & 1 == 1
}

// The word whose first `k` positions are set.
pub(crate) fn leading_ones(k: u32) -> u32
    requires { k ≤ 32 }
    ensures { result ≡ leading_ones k }
{
    if k == 0 { 0 } else { u32::MAX << (32 - k) }
}
