// Loads of bytes and of words: from the second operand to the first.
ghost use Rattle.instructions.specs.Length as bytes;
ghost use Rattle.std.specs.Prelude.{◌≡◌};

use registers::operand::{Index, Pair, Pointer, Register};

#[derive(Clone, Copy)]
pub enum Load {
    // LD r,r'
    RegisterRegister(Register, Register),
    // LD r,n
    RegisterByte(Register),
    // LD r,(HL)
    RegisterMemory(Register),
    // LD r,(IX+d)
    RegisterIndexed(Register, Index),
    // LD (HL),r
    MemoryRegister(Register),
    // LD (HL),n
    MemoryByte,
    // LD (IX+d),r
    IndexedRegister(Index, Register),
    // LD (IX+d),n
    IndexedByte(Index),
    // LD A,(BC) and LD A,(DE)
    AccumulatorPointer(Pointer),
    // LD (BC),A and LD (DE),A
    PointerAccumulator(Pointer),
    // LD A,(mn)
    AccumulatorAddress,
    // LD (mn),A
    AddressAccumulator,
    // LD A,I
    AccumulatorI,
    // LD A,R
    AccumulatorR,
    // LD I,A
    IAccumulator,
    // LD R,A
    RAccumulator,
    // LD dd,mn
    PairWord(Pair),
    // LD IX,mn
    IndexWord(Index),
    // LD HL,(mn) in one opcode byte
    HlAddress,
    // LD dd,(mn) in two
    PairAddress(Pair),
    // LD IX,(mn)
    IndexAddress(Index),
    // LD (mn),HL in one opcode byte
    AddressHl,
    // LD (mn),ss in two
    AddressPair(Pair),
    // LD (mn),IX
    AddressIndex(Index),
    // LD SP,HL
    SpHl,
    // LD SP,IX
    SpIndex(Index),
}

impl Load {
    pub(crate) fn length(self) -> usize
        ensures { result ≡ bytes.of_load self }
    {
        match self {
            Load::RegisterRegister(_, _)
            | Load::RegisterMemory(_)
            | Load::MemoryRegister(_)
            | Load::AccumulatorPointer(_)
            | Load::PointerAccumulator(_)
            | Load::SpHl => 1,
            Load::RegisterByte(_)
            | Load::MemoryByte
            | Load::AccumulatorI
            | Load::AccumulatorR
            | Load::IAccumulator
            | Load::RAccumulator
            | Load::SpIndex(_) => 2,
            Load::RegisterIndexed(_, _)
            | Load::IndexedRegister(_, _)
            | Load::AccumulatorAddress
            | Load::AddressAccumulator
            | Load::PairWord(_)
            | Load::HlAddress
            | Load::AddressHl => 3,
            Load::IndexedByte(_)
            | Load::IndexWord(_)
            | Load::PairAddress(_)
            | Load::IndexAddress(_)
            | Load::AddressPair(_)
            | Load::AddressIndex(_) => 4,
        }
    }
}
