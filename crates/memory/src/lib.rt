// Data memories: what each of them means, and the plainest one.
#![tactic(auto)]

pub mod fault;
pub mod flat;
pub mod meaning;
