// Arithmetic and logic, of bytes and of words.
ghost use Rattle.instructions.specs.Length as bytes;
ghost use Rattle.std.specs.Prelude.{◌≡◌};

use arithmetic::operation::Operation;
use registers::operand::{Index, Pair, Register};

// What is added to an index register: where other pairs have HL, it is the index register itself.
#[derive(Clone, Copy)]
pub enum Addend {
    Bc,
    De,
    Itself,
    Sp,
}

#[derive(Clone, Copy)]
pub enum Arithmetic {
    // ADD A,r and the seven other operations
    Register(Operation, Register),
    // ADD A,n
    Byte(Operation),
    // ADD A,(HL)
    Memory(Operation),
    // ADD A,(IX+d)
    Indexed(Operation, Index),
    // INC r
    IncrementRegister(Register),
    // INC (HL)
    IncrementMemory,
    // INC (IX+d)
    IncrementIndexed(Index),
    // DEC r
    DecrementRegister(Register),
    // DEC (HL)
    DecrementMemory,
    // DEC (IX+d)
    DecrementIndexed(Index),
    // TST r
    TestRegister(Register),
    // TST n
    TestByte,
    // TST (HL)
    TestMemory,
    // CPL
    Complement,
    // NEG
    Negate,
    // MLT ww
    Multiply(Pair),
    // ADD HL,ss
    AddPair(Pair),
    // ADC HL,ss
    AddWithCarryPair(Pair),
    // SBC HL,ss
    SubtractWithCarryPair(Pair),
    // ADD IX,xx
    AddIndex(Index, Addend),
    // INC ss
    IncrementPair(Pair),
    // INC IX
    IncrementIndex(Index),
    // DEC ss
    DecrementPair(Pair),
    // DEC IX
    DecrementIndex(Index),
}

impl Arithmetic {
    pub(crate) fn length(self) -> usize
        ensures { result ≡ bytes.of_arithmetic self }
    {
        match self {
            Arithmetic::Register(_, _)
            | Arithmetic::Memory(_)
            | Arithmetic::IncrementRegister(_)
            | Arithmetic::IncrementMemory
            | Arithmetic::DecrementRegister(_)
            | Arithmetic::DecrementMemory
            | Arithmetic::Complement
            | Arithmetic::AddPair(_)
            | Arithmetic::IncrementPair(_)
            | Arithmetic::DecrementPair(_) => 1,
            Arithmetic::Byte(_)
            | Arithmetic::TestRegister(_)
            | Arithmetic::TestMemory
            | Arithmetic::Negate
            | Arithmetic::Multiply(_)
            | Arithmetic::AddWithCarryPair(_)
            | Arithmetic::SubtractWithCarryPair(_)
            | Arithmetic::AddIndex(_, _)
            | Arithmetic::IncrementIndex(_)
            | Arithmetic::DecrementIndex(_) => 2,
            Arithmetic::Indexed(_, _)
            | Arithmetic::IncrementIndexed(_)
            | Arithmetic::DecrementIndexed(_)
            | Arithmetic::TestByte => 3,
        }
    }
}
