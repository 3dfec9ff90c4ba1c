// The check before a node is made: all that could be wrong with what the node is told.
ghost use Rattle.std.specs.Prelude.{◌≡◌};
ghost use Rattle.member.specs.Checks.{distinct_numbers, check_answer};

use crate::types::Identity;
use answer::Refusal;

// Whether no number is 0 or comes twice.
fn are_distinct(numbers: &[u16]) -> bool
    ensures { result ≡ distinct_numbers numbers.now }
{
    let mut rest = numbers;
    while let Some((first, later)) = rest.split_first() {
        if *first == 0 || later.contains(first) {
            return false;
        }
        rest = later;
    }
    true
}

// Refuses what no node can be made with: `most` (B) is the most children, `rate` (R) the reports in hundredths, and
// `others` are the numbers of the node's neighbours besides the one above it.
pub fn check(identity: Identity, most: u16, rate: u16, others: &[u16]) -> Result<(), Refusal>
    ensures { result ≡ check_answer identity most rate others.now }
{
    if !(1..=16).contains(&most) || !(1..=9999).contains(&rate) || others.len() > most as usize {
        return Err(Refusal::OutOfRange);
    }
    let own = identity.address.number;
    let upper = identity.upper.number();
    if !identity.address.is_good_beside(upper) || !are_distinct(others) {
        return Err(Refusal::OutOfRange);
    }
    if others.contains(&own) || others.contains(&upper) {
        return Err(Refusal::OutOfRange);
    }
    Ok(())
}
