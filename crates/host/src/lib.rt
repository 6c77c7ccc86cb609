//! Hosts: who hears whom.

#![tactic(auto)]

pub mod kind;
pub mod making;
pub mod neighbours;
mod rows;
pub mod scan;
pub mod sides;
mod storey;
pub mod table;
