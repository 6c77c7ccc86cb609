//! Tests of the scan host and the table host, on written floors and on pseudo-random ones.

#![tactic(auto)]

#[cfg(test)]
mod floors;
#[cfg(test)]
mod hosts;
