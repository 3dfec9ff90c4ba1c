// The packet that bytes mean.
ghost use Rattle.std.specs.Prelude.{◌≡◌, IfOk, OnOk};
ghost use Rattle.wire.specs.Laws.{canonical_packet, FlagsAsSent, SameButIgnored};
ghost use Rattle.wire.specs.Plain.{plain_answer, plain_packet};
ghost use Rattle.wire.specs.Encoding.{encode};
ghost use Rattle.wire.specs.Decoding.{decode};

use crate::framed::{Framed, header_wrong, length_fits, type_wrong};
use crate::packet::Packet;
use answer::Refusal;

// The packet that `bytes` are, or the first refusal that they meet. A payload stays where it lies.
pub fn read(bytes: &[u8]) -> Result<Packet<'_>, Refusal>
    ensures is { plain_answer result ≡ decode bytes.now }
    ensures canonical { IfOk result (λ p. canonical_packet (plain_packet p) ≡ plain_packet p) }
    ensures flags { OnOk result (FlagsAsSent bytes.now) }
    ensures writes_back { IfOk result (λ p. SameButIgnored bytes.now (encode (plain_packet p))) }
{
    // One test after the other here: from a function of their own the refusals would meet in one place first.
    if bytes.len() < 16 {
        return Err(Refusal::ShortPacket);
    }
    if header_wrong(bytes) {
        return Err(Refusal::BadHeader);
    }
    if type_wrong(bytes) {
        return Err(Refusal::UnknownType);
    }
    if !length_fits(bytes) {
        return Err(Refusal::LengthMismatch);
    }
    Framed { bytes }.packet()
}
