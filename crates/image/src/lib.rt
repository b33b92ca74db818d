// Images: a program, its data words and a depth as checked blocks of bytes.
#![tactic(auto)]

pub mod block;
mod draft;
pub mod fault;
pub mod layout;
pub mod opened;
pub mod opening;
pub mod words;
pub mod writing;
