// What the workbench prints, as bytes.
#![tactic(auto)]

pub mod lines;
pub mod text;
