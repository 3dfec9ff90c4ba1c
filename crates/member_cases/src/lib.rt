// Cases for the joining rules and the control node: every row of the tables, each refusal, and rejoining.
#![tactic(auto)]

#[cfg(test)]
mod joining;
#[cfg(test)]
mod nodes;
