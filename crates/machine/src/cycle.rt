// The machine cycles, one for each kind of node but the ports: each makes its access and counts itself.
ghost use Rattle.cycles.specs.Tree as tree;
ghost use Rattle.machine.specs.Machines.{Below, Ends, Gives, got};
ghost use Rattle.processor.specs.Parts as parts;

use crate::state::Machine;
use memory::Memory;
use operands::address::counted;
use panel::Panel;
use panel::line::Line;
use view::byte_through;

impl<M: Memory, P: Panel> Machine<M, P> {
    // Nothing outside the processor, for so many states.
    pub fn internal(&mut self, states: u8)
        requires { Below 2000 self.old }
        ensures { Ends {n = 0} P.make M.memory P.state (λ p. tree.internal states (tree.done p)) self.old self.new }
    {
        self.spent.cycles += 1;
        self.spent.states += u32::from(states);
    }

    // A byte of data.
    pub fn read(&mut self, at: u16) -> u8
        requires { Below 2000 self.old }
        ensures { Gives {n = 0} P.make M.memory P.state (λ p. tree.read at (λ b. got b p)) self.old result self.new }
    {
        self.internal(3);
        byte_through(&self.memory, self.window, at)
    }

    pub fn write(&mut self, at: u16, byte: u8)
        requires { Below 2000 self.old }
        ensures { Ends {n = 1} P.make M.memory P.state (λ p. tree.write at byte (tree.done p)) self.old self.new }
    {
        self.internal(3);
        // what takes no writes drops the byte
        match self.memory.write(self.window.physical(at), byte) {
            Ok(()) => {}
            // a translated address is never denied
            Err(_) => unreachable!(),
        }
    }

    // The opcode byte at PC, which R counts.
    pub fn opcode(&mut self) -> u8
        requires { Below 2000 self.old }
        ensures { Gives {n = 0} P.make M.memory P.state (λ p. parts.opcode p got) self.old result self.new }
    {
        self.cpu.r = counted(self.cpu.r);
        self.operand()
    }

    // The operand byte at PC.
    pub fn operand(&mut self) -> u8
        requires { Below 2000 self.old }
        ensures { Gives {n = 0} P.make M.memory P.state (λ p. parts.operand p got) self.old result self.new }
    {
        let at = self.cpu.pc;
        self.cpu.pc = at.wrapping_add(1);
        self.read(at)
    }

    // The acknowledgement of a line.
    pub fn acknowledge(&mut self, line: Line, states: u8)
        requires { Below 2000 self.old }
        ensures { Ends {n = 0} P.make M.memory P.state (λ p. tree.acknowledge line states (tree.done p)) self.old self.new }
    {
        self.internal(states);
        self.panel.acknowledge(line);
    }
}
