// Instruction words: reading, writing and meaning. Everything that runs programs stands on this crate's contracts.
#![tactic(auto)]

pub mod fault;
pub mod instruction;
pub mod meaning;
pub mod operation;
pub mod program;
pub mod register;
