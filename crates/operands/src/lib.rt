// Registers, words and conditions by the names that instructions give them, and the sums of addresses.
#![tactic(auto)]

pub mod address;
pub mod condition;
mod index;
pub mod pair;
pub mod register;
pub mod word;
