// Fields, where they lie in their ranges.
ghost use Rattle.std.specs.Prelude.{◌≡◌, length, nat_le, nat_lt, if◌then◌else◌, Ok, Err};
ghost use Rattle.answer.specs.declared.Refusal.TheVariants.{OutOfRange};
ghost use Rattle.wire.specs.Ranges.{at_least_one, header_in_range, payload_in_range};

use answer::Refusal;

// The value, or the refusal where it is not good.
fn ranged<T: Copy>(value: T, is_good: bool) -> Result<T, Refusal>
    ensures { result ≡ (if is_good then Ok value else Err OutOfRange) }
{
    if is_good {
        Ok(value)
    } else {
        Err(Refusal::OutOfRange)
    }
}

pub(crate) fn check_header(stream: u16, writer: u16) -> Result<(), Refusal>
    ensures { result ≡ (if header_in_range stream writer then Ok tt else Err OutOfRange) }
{
    ranged((), stream >= 32768 && writer > 0)
}

// A term, a start and the like.
pub(crate) fn at_least_one(field: u32) -> Result<u32, Refusal>
    ensures { result ≡ (if at_least_one field then Ok field else Err OutOfRange) }
{
    ranged(field, field > 0)
}

// The highest number of a stream, which may be 0.
pub(crate) fn ranged_highest(field: u32) -> Result<u32, Refusal>
    ensures { result ≡ (if nat_lt field 4294967295 then Ok field else Err OutOfRange) }
{
    ranged(field, field < u32::MAX)
}

pub(crate) fn ranged_slot(field: u16) -> Result<u16, Refusal>
    ensures { result ≡ (if nat_le field 15 then Ok field else Err OutOfRange) }
{
    ranged(field, field <= 15)
}

pub(crate) fn payload_in_range(number: u32, payload: &[u8]) -> bool
    ensures { result ≡ payload_in_range number (length payload.now) }
{
    number > 0 && number < u32::MAX && payload.len() > 0 && payload.len() <= 512
}

// Refuses a payload or its number outside their ranges.
pub(crate) fn check_payload(number: u32, payload: &[u8]) -> Result<(), Refusal>
    ensures { result ≡ (if payload_in_range number (length payload.now) then Ok tt else Err OutOfRange) }
{
    ranged((), payload_in_range(number, payload))
}
