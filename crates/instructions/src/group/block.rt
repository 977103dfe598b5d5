// Blocks of memory: transfer and comparison, once or repeated.
ghost use Rattle.instructions.specs.Length as bytes;
ghost use Rattle.std.specs.Prelude.{◌≡◌};

use registers::operand::Direction;

#[derive(Clone, Copy)]
pub enum Block {
    // LDI and LDD
    Transfer(Direction),
    // LDIR and LDDR
    TransferRepeated(Direction),
    // CPI and CPD
    Compare(Direction),
    // CPIR and CPDR
    CompareRepeated(Direction),
}

impl Block {
    pub(crate) fn length(self) -> usize
        ensures { result ≡ bytes.of_block self }
    {
        match self {
            Block::Transfer(_)
            | Block::TransferRepeated(_)
            | Block::Compare(_)
            | Block::CompareRepeated(_) => 2,
        }
    }
}
