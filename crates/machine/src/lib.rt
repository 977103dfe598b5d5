// What a step works on, and its machine cycles in code: every access of a cycle to memory and panel, and every count, is made here.
#![tactic(auto)]

pub mod cost;
mod cycle;
pub mod outcome;
mod pointed;
mod port;
pub mod state;
mod word;
