// Cases for the rows of a control node: each row of the table of packets from children, and two reports combined.
#![tactic(auto)]

#[cfg(test)]
mod combined;
#[cfg(test)]
mod decisions;
