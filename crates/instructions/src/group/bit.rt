// Test, set and reset of one bit, which goes by its number, 0 to 7.
ghost use Rattle.instructions.specs.Length as bytes;
ghost use Rattle.std.specs.Prelude.{◌≡◌};

use registers::operand::{Index, Register};

#[derive(Clone, Copy)]
pub enum Bit {
    // BIT b,r
    TestRegister(u8, Register),
    // BIT b,(HL)
    TestMemory(u8),
    // BIT b,(IX+d)
    TestIndexed(u8, Index),
    // RES b,r
    ResetRegister(u8, Register),
    // RES b,(HL)
    ResetMemory(u8),
    // RES b,(IX+d)
    ResetIndexed(u8, Index),
    // SET b,r
    SetRegister(u8, Register),
    // SET b,(HL)
    SetMemory(u8),
    // SET b,(IX+d)
    SetIndexed(u8, Index),
}

impl Bit {
    pub(crate) fn length(self) -> usize
        ensures { result ≡ bytes.of_bit self }
    {
        match self {
            Bit::TestRegister(_, _)
            | Bit::TestMemory(_)
            | Bit::ResetRegister(_, _)
            | Bit::ResetMemory(_)
            | Bit::SetRegister(_, _)
            | Bit::SetMemory(_) => 2,
            Bit::TestIndexed(_, _) | Bit::ResetIndexed(_, _) | Bit::SetIndexed(_, _) => 4,
        }
    }
}
