// Two bytes at a time, each mapped by itself, and the address behind a displacement.
ghost use Rattle.cycles.specs.Tree as tree;
ghost use Rattle.machine.specs.Machines.{Below, Ends, Gives, got};
ghost use Rattle.processor.specs.Parts as parts;
ghost use Rattle.registers.specs.Operands.{index_of};
ghost use Rattle.registers.specs.Registers.{displaced};
ghost use Rattle.std.specs.Prelude.{◌≡◌};

use crate::state::Machine;
use memory::Memory;
use operands::address::displaced;
use operands::word::Word;
use panel::Panel;
use registers::operand::Index;

impl<M: Memory, P: Panel> Machine<M, P> {
    // Two operand bytes, low first.
    #[inline(always)]
    pub fn word_operand(&mut self) -> u16
        requires { Below 1000 self.old }
        ensures { Gives {n = 0} P.make M.memory P.state (λ p. parts.word_operand p got) self.old result self.new }
    {
        let low = self.operand();
        let high = self.operand();
        u16::from_le_bytes([low, high])
    }

    // The address behind an index register by a displacement that was fetched before.
    pub fn behind(&self, name: Index, displacement: u8) -> u16
        ensures { result ≡ displaced (index_of name self.now.cpu) displacement }
    {
        displaced(name.get(&self.cpu), displacement)
    }

    // The address behind one that is fetched now.
    pub fn indexed(&mut self, name: Index) -> u16
        requires { Below 1000 self.old }
        ensures { Gives {n = 0} P.make M.memory P.state (λ p. parts.indexed name p got) self.old result self.new }
    {
        let displacement = self.operand();
        self.behind(name, displacement)
    }

    // The low byte is read, or written, first.
    #[inline(always)]
    pub fn read_word(&mut self, at: u16) -> u16
        requires { Below 1000 self.old }
        ensures { Gives {n = 0} P.make M.memory P.state (λ p. parts.read_word at (λ v. got v p)) self.old result self.new }
    {
        let low = self.read(at);
        let high = self.read(at.wrapping_add(1));
        u16::from_le_bytes([low, high])
    }

    pub fn write_word(&mut self, at: u16, value: u16)
        requires { Below 1000 self.old }
        ensures { Ends {n = 2} P.make M.memory P.state (λ p. parts.write_word at value (tree.done p)) self.old self.new }
    {
        let [low, high] = value.to_le_bytes();
        self.write(at, low);
        self.write(at.wrapping_add(1), high);
    }

    // The stack grows downward: the high byte is pushed first, and the low one popped first.
    #[inline(always)]
    pub fn push(&mut self, value: u16)
        requires { Below 1000 self.old }
        ensures { Ends {n = 2} P.make M.memory P.state (λ p. parts.push value p tree.done) self.old self.new }
    {
        let [low, high] = value.to_le_bytes();
        let sp = self.cpu.sp;
        self.write(sp.wrapping_sub(1), high);
        self.write(sp.wrapping_sub(2), low);
        self.cpu.sp = sp.wrapping_sub(2);
    }

    #[inline(always)]
    pub fn pop(&mut self) -> u16
        requires { Below 1000 self.old }
        ensures { Gives {n = 0} P.make M.memory P.state (λ p. parts.pop p got) self.old result self.new }
    {
        let sp = self.cpu.sp;
        let value = self.read_word(sp);
        self.cpu.sp = sp.wrapping_add(2);
        value
    }
}
