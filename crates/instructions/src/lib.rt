// What an instruction is: its form with the operands that its opcode names, in ten groups, and its length.
#![tactic(auto)]

pub mod group;
pub mod instruction;
