//! Sixteen lines over one storey: packets are opened, hopped, carried and collected, nodes withdrawn and returned.

#![tactic(auto)]

mod lines;
pub mod list;
pub mod network;
mod sending;
pub mod types;
