// Input and output cycles: a port is the processor's own, or the panel's.
ghost use Rattle.cycles.specs.Tree as tree;
ghost use Rattle.machine.specs.Machines.{Below, Ends, Gives, got};
ghost use Rattle.processor.specs.Parts as parts;

use crate::state::Machine;
use memory::Memory;
use panel::Panel;

impl<M: Memory, P: Panel> Machine<M, P> {
    pub fn input(&mut self, port: u16) -> u8
        requires { Below 2000 self.old }
        ensures { Gives {n = 0} P.make M.memory P.state (λ p. parts.input port p (λ b. got b p)) self.old result self.new }
    {
        self.internal(3);
        if self.cpu.owns(port) {
            self.cpu.port_byte(self.window, (port % 256) as u8)
        } else {
            self.panel.read(port)
        }
    }

    pub fn output(&mut self, port: u16, byte: u8)
        requires { Below 2000 self.old }
        ensures { Ends {n = 0} P.make M.memory P.state (λ p. parts.output port byte p tree.done) self.old self.new }
    {
        self.internal(3);
        if self.cpu.owns(port) {
            self.cpu
                .write_port(&mut self.window, (port % 256) as u8, byte);
        } else {
            // a denial is passed over: a panel that is full stays as it is, as the definition has it
            let _ = self.panel.write(port, byte);
        }
    }
}
