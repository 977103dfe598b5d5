// Sets of physical pages, and which pages a list of calls opens.
#![tactic(auto)]

pub mod laws;
pub mod pages;
