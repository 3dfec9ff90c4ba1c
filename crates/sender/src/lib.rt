// The sender: it numbers payloads, queues them until the tree holds them, and learns from reports what to send again.
#![tactic(auto)]

mod making;
mod phase;
mod reports;
mod sender;
mod sending;
mod wanted;

pub use making::check;
pub use phase::{AtEnd, Phase, StillOpen};
pub use sender::{Ended, Open, Sender};
pub use wanted::Wanted;
