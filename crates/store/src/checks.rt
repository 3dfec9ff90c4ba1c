// What every kind of store does alike: it looks at a pair, and writes a payload to a buffer.
ghost use Rattle.std.specs.Prelude.{◌≡◌, length, is_ok};
ghost use Rattle.store.specs.Operations.{pair_answer, fit_answer, at_front};

use answer::Refusal;

// The longest payload that a record can have, in bytes.
pub const LONGEST: usize = 512;

// The last number that a record can have.
pub const LAST: u32 = 4_294_967_294;

// Refuses a pair that no store may hold, whatever it holds already.
pub fn check_pair(number: u32, payload: &[u8]) -> Result<(), Refusal>
    ensures { result ≡ pair_answer number payload.now }
{
    if number == 0 || number > LAST {
        return Err(Refusal::BadNumber);
    }
    if payload.is_empty() || payload.len() > LONGEST {
        return Err(Refusal::BadLength);
    }
    Ok(())
}

// Writes `payload` to the front of `buffer` if it fits.
pub fn copy_payload(payload: &[u8], buffer: &mut [u8]) -> Result<usize, Refusal>
    ensures answer { result ≡ fit_answer payload.now (length buffer.old) }
    ensures buffer { buffer.new ≡ at_front (is_ok result) payload.now buffer.old }
{
    let len = payload.len();
    if buffer.len() < len {
        return Err(Refusal::ShortBuffer);
    }
    // Not by `get_mut`: after its borrow no proof knows the buffer's bytes.
    buffer[..len].copy_from_slice(payload);
    Ok(len)
}
