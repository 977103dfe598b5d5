// Loads, the stack and exchanges, in code.
#![tactic(auto)]

pub mod exchange;
pub mod load;
