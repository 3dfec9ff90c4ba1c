// The inner nodes of the tree: the control node and the top.
#![tactic(auto)]

pub mod kind;
pub mod node;
mod taking;
