// Cases for the sender, each over both kinds of store: the window, the order of the refusals, reports that are too old,
// the end of the stream, and the bytes of the worked exchange.
#![tactic(auto)]

#[cfg(test)]
mod common;
#[cfg(test)]
mod exchange;
#[cfg(test)]
mod offers;
#[cfg(test)]
mod reports;
