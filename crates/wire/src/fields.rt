// Numbers in a packet: highest byte first. Each field lies at a fixed place, so bytes and place are no cursor.
ghost use Rattle.std.specs.Prelude.{◌≡◌, ◌+◌, ◌≤◌, length, drop, map, slice_index};
ghost use Rattle.std.specs.List.{range_with_len};
ghost use Rattle.wire.specs.Fields.{short_at, field_at, overwrite};

// The `N` bytes from `at` on, by one copy: `first_chunk` would answer an Option and test once more. The two readers below stand
// for each width, since std has no trait for `from_be_bytes`.
pub(crate) fn array_at<const N: usize>(bytes: &[u8], at: usize) -> [u8; N]
    requires { at + N ≤ length bytes.now }
    ensures { result ≡ map (λ i. slice_index bytes.now (at + i)) (range_with_len 0 N) }
{
    let mut part = [0; N];
    part.copy_from_slice(&bytes[at..at + N]);
    part
}

pub(crate) fn u16_at(bytes: &[u8], at: usize) -> u16
    requires { at + 2 ≤ length bytes.now }
    ensures { result ≡ short_at bytes.now at }
{
    u16::from_be_bytes(array_at(bytes, at))
}

pub(crate) fn u32_at(bytes: &[u8], at: usize) -> u32
    requires { at + 4 ≤ length bytes.now }
    ensures { result ≡ field_at bytes.now at }
{
    u32::from_be_bytes(array_at(bytes, at))
}

pub(crate) fn rest_from(bytes: &[u8], at: usize) -> &[u8]
    requires { at ≤ length bytes.now }
    ensures { result.now ≡ drop at bytes.now }
{
    &bytes[at..]
}

// Copies `part` to place `at`.
pub(crate) fn put<const N: usize>(out: &mut [u8], at: usize, part: [u8; N])
    requires { at + N ≤ length out.old }
    ensures { out.new ≡ overwrite at part.entry out.old }
{
    out[at..at + N].copy_from_slice(&part);
}
