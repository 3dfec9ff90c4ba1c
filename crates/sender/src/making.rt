// The check before a sender is made: all that could be wrong with what it is told.
ghost use Rattle.std.specs.Prelude.{◌≡◌};
ghost use Rattle.sender.specs.Senders.{check_answer};

use address::Address;
use answer::Refusal;

// Refuses what no sender can be made with. `top` is the number of the only node that it listens to.
pub fn check(address: Address, top: u16) -> Result<(), Refusal>
    ensures { result ≡ check_answer address top }
{
    if address.is_good_beside(top) {
        Ok(())
    } else {
        Err(Refusal::OutOfRange)
    }
}
