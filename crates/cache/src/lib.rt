// A cache over any data memory.
#![tactic(auto)]

pub mod cache;
pub mod line;
pub mod through;
