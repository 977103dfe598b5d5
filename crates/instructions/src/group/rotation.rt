// Rotates and shifts.
ghost use Rattle.instructions.specs.Length as bytes;
ghost use Rattle.std.specs.Prelude.{◌≡◌};

use arithmetic::rotate::Rotate;
use registers::operand::{Index, Register};

#[derive(Clone, Copy)]
pub enum Rotation {
    // RLCA, RRCA, RLA and RRA
    Accumulator(Rotate),
    // RLC r and the six others
    Register(Rotate, Register),
    // RLC (HL)
    Memory(Rotate),
    // RLC (IX+d)
    Indexed(Rotate, Index),
    // RLD
    DigitsLeft,
    // RRD
    DigitsRight,
}

impl Rotation {
    pub(crate) fn length(self) -> usize
        ensures { result ≡ bytes.of_rotation self }
    {
        match self {
            Rotation::Accumulator(_) => 1,
            Rotation::Register(_, _)
            | Rotation::Memory(_)
            | Rotation::DigitsLeft
            | Rotation::DigitsRight => 2,
            Rotation::Indexed(_, _) => 4,
        }
    }
}
