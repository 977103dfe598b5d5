// The commands of a script, and how one is read from a line of it.
#![tactic(auto)]

pub mod command;
mod counts;
pub mod form;
pub mod laws;
pub mod line;
mod lists;
mod places;
mod sayings;
pub mod unread;
pub mod wrong;
