// The plot of an image: a card runs it for a while, and what the panel recorded is listed.
#![tactic(auto)]

mod answer;
mod bench;
pub mod image;
pub mod laws;
