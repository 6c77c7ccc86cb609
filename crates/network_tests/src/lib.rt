//! Tests of lists in lent memory, packets in the hand, runs and networks, on floors worked by hand.

#![tactic(auto)]

#[cfg(test)]
mod carrying;
#[cfg(test)]
mod common;
#[cfg(test)]
mod hand;
#[cfg(test)]
mod lent;
#[cfg(test)]
mod refusals;
#[cfg(test)]
mod runs;
#[cfg(test)]
mod ways;
