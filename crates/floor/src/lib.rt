//! A storey: its nodes, the map that places them, and which links a planariser blocks.

#![tactic(auto)]

pub mod map;
pub mod node;
pub mod planariser;
