// Arithmetic and logic, rotates and shifts, and single bits, in code.
#![tactic(auto)]

pub mod bit;
mod byte_change;
pub mod calculation;
mod change;
pub mod rotation;
