// Repeating forms: each repetition is a step of its own.
ghost use Rattle.cycles.specs.Tree as tree;
ghost use Rattle.machine.specs.Machines.{Below, Ends};
ghost use Rattle.processor.specs.Block.{again_if};
ghost use Rattle.processor.specs.Parts.{finish};
ghost use Rattle.processor.specs.Port.{again_at_zero};
ghost use Rattle.registers.specs.Registers.{down, with_pc};

use machine::state::Machine;
use memory::Memory;
use panel::Panel;

// PC goes back to the instruction, in so many states.
fn back<M: Memory, P: Panel>(m: &mut Machine<M, P>, states: u8)
    requires { Below 700 m.old }
    ensures { Ends {n = 0} P.make M.memory P.state (λ p. tree.internal states (finish (λ s. with_pc (down s.pc 2) s) p)) m.old m.new }
{
    m.internal(states);
    m.cpu.pc = m.cpu.pc.wrapping_sub(2);
}

// Again, if there is more to do, in two states.
pub(crate) fn again<M: Memory, P: Panel>(m: &mut Machine<M, P>, more: bool)
    requires { Below 600 m.old }
    ensures { Ends {n = 0} P.make M.memory P.state (again_if more) m.old m.new }
{
    if more {
        back(m, 2);
    }
}

// The OTIM family takes one state at the end, or three to begin again.
pub(crate) fn again_zero<M: Memory, P: Panel>(m: &mut Machine<M, P>, more: bool)
    requires { Below 600 m.old }
    ensures { Ends P.make M.memory P.state (again_at_zero more) m.old m.new }
{
    if more {
        back(m, 3);
    } else {
        m.internal(1);
    }
}
