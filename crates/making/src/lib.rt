// What a card of a script is made of: a memory with its two plugs, and a panel of either make.
#![tactic(auto)]

pub mod memories;
pub mod panels;
pub mod unmade;
