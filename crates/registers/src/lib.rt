// What the processor holds: its registers, the window's three bytes, and the names by which instructions speak of them.
#![tactic(auto)]

pub mod operand;
mod ports;
pub mod registers;
pub mod window;
