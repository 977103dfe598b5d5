// Jumps, calls, and the processor's control of itself, in code.
#![tactic(auto)]

pub mod call;
pub mod control;
pub mod jump;
