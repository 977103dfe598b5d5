// What a log prints: a line for each answer, and what a card shows between them.
#![tactic(auto)]

pub mod answer;
pub mod compared;
pub mod denied;
mod fault;
pub mod laws;
pub mod memory_line;
pub mod pages_line;
mod register_lines;
pub mod show;
pub mod shown;
