// Worked packets, run: each body in bytes, each refusal at its edges, the flags of a HACK.
#![tactic(auto)]

#[cfg(test)]
mod bodies;
#[cfg(test)]
mod flags;
#[cfg(test)]
mod refusals;
#[cfg(test)]
mod vectors;
#[cfg(test)]
mod writes;
