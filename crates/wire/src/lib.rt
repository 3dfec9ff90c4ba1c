// The packets of the protocol as bytes: `read` and `write`, and the flags of a HACK.
#![tactic(auto)]

mod fields;
mod flags;
mod framed;
mod held;
mod packet;
mod packet_type;
mod ranges;
mod reading;
mod reading_hack;
mod span;
mod writing;
mod writing_hack;

pub use flags::flag_is_set;
pub use packet::{Body, Hack, Message, Packet, TreeId};
pub use reading::read;
pub use writing::{check_write, write};
