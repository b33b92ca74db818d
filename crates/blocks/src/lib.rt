// A data memory over the data blocks of an image.
#![tactic(auto)]

pub mod block_memory;
pub mod laws;
pub mod patch;
