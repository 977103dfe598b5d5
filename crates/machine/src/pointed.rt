// A byte by what names it: a register, a word of the registers that points at it, or an index register with a displacement.
ghost use Rattle.cycles.specs.Tree as tree;
ghost use Rattle.machine.specs.Machines.{Below, Ends, Gives, got};
ghost use Rattle.processor.specs.Parts as parts;
ghost use Rattle.registers.specs.Operands.{value_of};

use crate::state::Machine;
use memory::Memory;
use operands::register::byte;
use operands::word::Word;
use panel::Panel;
use registers::operand::{Index, Register};

impl<M: Memory, P: Panel> Machine<M, P> {
    // A register's byte, after one state.
    pub fn register_byte(&mut self, from: Register) -> u8
        requires { Below 1000 self.old }
        ensures { Gives {n = 0} P.make M.memory P.state (λ p. tree.internal 1 (got (value_of from p.cpu) p)) self.old result self.new }
    {
        self.internal(1);
        byte(&self.cpu, from)
    }

    pub fn read_at<W: Word>(&mut self, pointer: W) -> u8
        requires { Below 1000 self.old }
        ensures { Gives {n = 0} P.make M.memory P.state (λ p. tree.read (W.value pointer p.cpu) (λ b. got b p)) self.old result self.new }
    {
        let at = pointer.get(&self.cpu);
        self.read(at)
    }

    pub fn write_at<W: Word>(&mut self, pointer: W, byte: u8)
        requires { Below 1000 self.old }
        ensures { Ends {n = 1} P.make M.memory P.state (λ p. tree.write (W.value pointer p.cpu) byte (tree.done p)) self.old self.new }
    {
        let to = pointer.get(&self.cpu);
        self.write(to, byte);
    }

    // The displacement is the next operand byte.
    pub fn read_indexed(&mut self, name: Index) -> u8
        requires { Below 900 self.old }
        ensures { Gives {n = 0} P.make M.memory P.state (λ p. parts.indexed name p (λ a q. tree.internal 2 (tree.read a (λ b. got b q)))) self.old result self.new }
    {
        let at = self.indexed(name);
        self.internal(2);
        self.read(at)
    }
}
