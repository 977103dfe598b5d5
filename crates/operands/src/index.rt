// An index register, by its name.
ghost use Rattle.registers.specs.Operands.{index_of, with_index};

use crate::word::Word;
use registers::operand::Index;
use registers::registers::Registers;

impl Word for Index {
    ghost value = { index_of };

    ghost with_word = { with_index };

    fn get(self, cpu: &Registers) -> u16 {
        match self {
            Index::Ix => cpu.ix,
            Index::Iy => cpu.iy,
        }
    }

    fn set(self, cpu: &mut Registers, word: u16) {
        match self {
            Index::Ix => cpu.ix = word,
            Index::Iy => cpu.iy = word,
        }
    }
}
