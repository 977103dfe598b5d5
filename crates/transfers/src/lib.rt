// Blocks of memory, input and output, in code.
#![tactic(auto)]

mod again;
pub mod block;
pub mod port;
