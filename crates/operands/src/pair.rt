// A pair of registers as a word, by its name: the first register is the high byte.
ghost use Rattle.registers.specs.Operands.{pair_of, pointer_of, stack_pair_of, with_pair, with_stack_pair};
ghost use Rattle.std.specs.Prelude.{◌≡◌};

use crate::word::Word;
use arithmetic::flags::Flags;
use registers::operand::{Pair, Pointer, StackPair};
use registers::registers::Registers;

impl Word for Pair {
    ghost value = { pair_of };

    ghost with_word = { with_pair };

    fn get(self, cpu: &Registers) -> u16 {
        match self {
            Pair::Bc => u16::from_be_bytes([cpu.main.b, cpu.main.c]),
            Pair::De => u16::from_be_bytes([cpu.main.d, cpu.main.e]),
            Pair::Hl => u16::from_be_bytes([cpu.main.h, cpu.main.l]),
            Pair::Sp => cpu.sp,
        }
    }

    fn set(self, cpu: &mut Registers, word: u16) {
        let [high, low] = word.to_be_bytes();
        match self {
            Pair::Bc => {
                cpu.main.b = high;
                cpu.main.c = low;
            }
            Pair::De => {
                cpu.main.d = high;
                cpu.main.e = low;
            }
            Pair::Hl => {
                cpu.main.h = high;
                cpu.main.l = low;
            }
            Pair::Sp => cpu.sp = word,
        }
    }
}

// On the stack AF stands where other pairs have SP.
impl Word for StackPair {
    ghost value = { stack_pair_of };

    ghost with_word = { with_stack_pair };

    fn get(self, cpu: &Registers) -> u16 {
        match self {
            StackPair::Bc => Pair::Bc.get(cpu),
            StackPair::De => Pair::De.get(cpu),
            StackPair::Hl => Pair::Hl.get(cpu),
            StackPair::Af => u16::from_be_bytes([cpu.main.a, u8::from(cpu.main.f)]),
        }
    }

    fn set(self, cpu: &mut Registers, word: u16) {
        match self {
            StackPair::Bc => Pair::Bc.set(cpu, word),
            StackPair::De => Pair::De.set(cpu, word),
            StackPair::Hl => Pair::Hl.set(cpu, word),
            StackPair::Af => {
                let [high, low] = word.to_be_bytes();
                cpu.main.a = high;
                cpu.main.f = Flags::from(low);
            }
        }
    }
}

// A pointer is read and never set, so that it is no Word; turned into a Pair, it would take two calls to read.
pub fn pointer(cpu: &Registers, pointer: Pointer) -> u16
    ensures { result ≡ pointer_of pointer cpu.now }
{
    match pointer {
        Pointer::Bc => Pair::Bc.get(cpu),
        Pointer::De => Pair::De.get(cpu),
    }
}
