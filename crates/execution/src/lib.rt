// A step in code: the instruction at PC, traps, and interrupts, over any memory and any panel.
#![tactic(auto)]

mod acceptance;
mod instruction;
mod service;
pub mod step;
mod undefined;
