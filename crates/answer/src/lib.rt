// What calls answer: every refusal of the product, once, and what became of a packet that was not refused.
#![tactic(auto)]

ghost use Rattle.std.specs.Prelude.{◌≡◌, Some};
ghost use Rattle.answer.specs.Refusals.{refusal_number, refusal_text};

use std::error::Error;
use std::fmt;

// The reason why a call was refused. A refused call changes no node and no store and writes no byte.
#[derive(Clone, Copy, PartialEq, Eq, Debug)]
pub enum Refusal {
    BadNumber = 1,
    BadLength = 2,
    Held = 3,
    Full = 4,
    NotHeld = 5,
    ShortBuffer = 6,
    ShortPacket = 7,
    BadHeader = 8,
    UnknownType = 9,
    LengthMismatch = 10,
    OutOfRange = 11,
    ShortOutput = 12,
    OtherStream = 13,
    OtherAddressee = 14,
    NotTaken = 15,
    WrongStanding = 16,
    Exhausted = 17,
    HasLiveRow = 18,
    NoLiveRow = 19,
    BadPayload = 20,
    WindowFull = 21,
    NoneWanted = 22,
    NotQueued = 23,
}

impl Refusal {
    // The number by which documents, logs and other programs know this refusal.
    pub fn number(self) -> u8
        ensures { result ≡ refusal_number self }
    {
        self as u8
    }

    // What was wrong, in words.
    pub fn text(self) -> &'static str
        ensures { result.now ≡ refusal_text self }
    {
        match self {
            Refusal::BadNumber => "the number is 0 or 4294967295",
            Refusal::BadLength => "a payload's length is not 1 to 512",
            Refusal::Held => "the number is held already",
            Refusal::Full => "the store is full",
            Refusal::NotHeld => "the number is not held",
            Refusal::ShortBuffer => "the buffer is shorter than the payload",
            Refusal::ShortPacket => "the packet is shorter than 16 bytes",
            Refusal::BadHeader => "the packet's header is wrong",
            Refusal::UnknownType => "the packet's type is unknown",
            Refusal::LengthMismatch => "the packet's length does not fit its body",
            Refusal::OutOfRange => "a value is outside its range",
            Refusal::ShortOutput => "the output buffer is too short",
            Refusal::OtherStream => "the packet is of another tree or stream",
            Refusal::OtherAddressee => "the packet is for another node",
            Refusal::NotTaken => "this type is not taken from this writer",
            Refusal::WrongStanding => "the node's standing does not allow it",
            Refusal::Exhausted => "the last number, term or serial is used",
            Refusal::HasLiveRow => "a child is still live",
            Refusal::NoLiveRow => "no child is live",
            Refusal::BadPayload => "an offered length is not 1 to 512",
            Refusal::WindowFull => "256 records are not released yet",
            Refusal::NoneWanted => "no number is wanted",
            Refusal::NotQueued => "the wanted number is no longer queued",
        }
    }
}

// What a deliver that is not refused made of its packet.
#[derive(Clone, Copy, PartialEq, Eq, Debug)]
pub enum Outcome {
    // Old or out of place: nothing changed.
    Stale,
    // Taken, and this receiver should report now.
    Due,
    // The archive has no room: nothing changed.
    Full,
    // Taken.
    Taken,
}

// The answer of a deliver that is not refused. `reply` bytes of the caller's buffer are the reply. It is no
// Option: the caller sends the first `reply` bytes either way, and where there is no reply these are none.
#[derive(Clone, Copy, PartialEq, Eq, Debug)]
pub struct Delivered {
    pub outcome: Outcome,
    pub reply: usize,
}

impl fmt::Display for Refusal {
    ghost output = { λ s. Some (refusal_text s) };

    fn fmt<W: fmt::Write>(&self, f: &mut fmt::Formatter<W>) -> fmt::Result {
        f.write_str(self.text())
    }
}

impl Error for Refusal {}
