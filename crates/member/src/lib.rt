// The joining rules, written once for every kind of member.
#![tactic(auto)]

pub mod check;
pub mod kind;
pub mod member;
pub mod parent;
pub mod types;
