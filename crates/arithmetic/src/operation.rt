// The eight operations of the accumulator with a byte.
ghost use Rattle.arithmetic.specs.Operation as of;
ghost use Rattle.std.specs.Prelude.{◌≡◌};

use crate::add::{add, add_with_carry, compare, subtract, subtract_with_carry};
use crate::flags::Flags;
use crate::logic::{and, or, xor};

// ADD, ADC, SUB, SBC, AND, XOR, OR and CP, in the order of their opcodes.
#[derive(Clone, Copy, Debug)]
pub enum Operation {
    Add,
    AddWithCarry,
    Subtract,
    SubtractWithCarry,
    And,
    Xor,
    Or,
    Compare,
}

impl Operation {
    // What the accumulator and the flags become.
    pub fn apply(self, a: u8, b: u8, flags: Flags) -> (u8, Flags)
        ensures { result ≡ of.apply self a b flags }
    {
        match self {
            Operation::Add => add(a, b, flags),
            Operation::AddWithCarry => add_with_carry(a, b, flags),
            Operation::Subtract => subtract(a, b, flags),
            Operation::SubtractWithCarry => subtract_with_carry(a, b, flags),
            Operation::And => and(a, b, flags),
            Operation::Xor => xor(a, b, flags),
            Operation::Or => or(a, b, flags),
            Operation::Compare => compare(a, b, flags),
        }
    }
}
