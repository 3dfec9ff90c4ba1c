// Whether a stream is open or ended. The type tells, so a call that comes too late does not compile.
ghost use Rattle.std.specs.Prelude.{◌≡◌, Bool, true, false};
ghost use Rattle.sender.specs.Senders.{announcement};

use std::convert::Infallible;
use wire::Body;

pub trait Phase {
    ghost ended: { Self → Bool };

    // Whether the stream has ended.
    fn is_ended(&self) -> bool
        ensures { result ≡ ended self.now };

    // How far the numbers go, and whether that is the end.
    fn announcement(&self, highest: u32) -> Body<Infallible>
        ensures { result ≡ announcement (ended self.now) highest }
    {
        if self.is_ended() {
            Body::Eos { highest }
        } else {
            Body::NullData { highest }
        }
    }
}

#[derive(Drop)]
pub struct StillOpen;

#[derive(Drop)]
pub struct AtEnd;

impl Phase for StillOpen {
    ghost ended = { λ _. false };

    fn is_ended(&self) -> bool {
        false
    }
}

impl Phase for AtEnd {
    ghost ended = { λ _. true };

    fn is_ended(&self) -> bool {
        true
    }
}
