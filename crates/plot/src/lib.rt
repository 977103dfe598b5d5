// The listing of a plot as text: how a run ended, its registers, and the chains of the panel.
#![tactic(auto)]

pub mod chains;
pub mod laws;
pub mod listing;
mod record_line;
mod register_line;
pub mod run_line;
pub mod unplotted;
