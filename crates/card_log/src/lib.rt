// A log of calls, served on one card or on two, also from their making on; and which physical pages it opened.
#![tactic(auto)]

mod difference;
pub mod laws;
mod line;
mod opening;
pub mod pair;
pub mod progress;
pub mod replay;
pub mod serve;
pub mod served;
mod session;
