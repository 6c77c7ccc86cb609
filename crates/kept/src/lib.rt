//! Kept links, over any host and any planariser.

#![tactic(auto)]

pub mod around;
pub mod bearing;
pub mod laws;
pub mod links;
pub mod view;
