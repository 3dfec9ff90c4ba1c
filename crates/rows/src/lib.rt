// The rows of a control node: what it knows of each child, and what it reports of them together.
#![tactic(auto)]

pub mod row;
pub mod table;
