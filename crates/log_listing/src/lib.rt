// A log served piece by piece on one card or on two, with the lines that are printed of it.
#![tactic(auto)]

pub mod listed;
pub mod listed_pair;
pub mod pieces;
