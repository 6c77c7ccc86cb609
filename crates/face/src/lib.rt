//! A packet's record, and the one local step that a receiver makes of it.

#![tactic(auto)]

mod course;
mod crossing;
pub mod packet;
pub mod record;
pub mod step;
pub mod worked;
