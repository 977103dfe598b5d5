// A script read whole: what the boards hold, which plugs and which panel the cards have, and the log that they serve.
#![tactic(auto)]

pub mod assembled;
mod boards;
mod draft;
pub mod entry;
pub mod filled;
pub mod laws;
pub mod laying;
mod lines;
pub mod plan;
pub mod put;
mod setup;
pub mod wrong;
