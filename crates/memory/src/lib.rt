// The two kinds of store that are made over a block of memory: a journal and a slot store.
#![tactic(auto)]

pub mod journal;
mod layout;
pub mod slots;
