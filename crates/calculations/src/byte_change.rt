// A byte changed in place, in a register or in memory.
ghost use Rattle.calculations.specs.Change as of;
ghost use Rattle.machine.specs.Machines.{Below, Ends};
ghost use Rattle.processor.specs.Arithmetic.{on_memory};

use crate::change::Change;
use machine::outcome::take;
use machine::state::Machine;
use memory::Memory;
use operands::word::Word;
use panel::Panel;
use registers::operand::{Index, Pair, Register};

pub(crate) fn in_register<C: Change, M: Memory, P: Panel>(
    m: &mut Machine<M, P>,
    change: C,
    register: Register,
)
    requires { Below 500 m.old }
    ensures { Ends P.make M.memory P.state (of.in_register (C.rule change) register) m.old m.new }
{
    let byte = m.register_byte(register);
    let outcome = change.change(byte, m.cpu.main.f);
    take(&mut m.cpu, register, outcome);
}

fn at_address<C: Change, M: Memory, P: Panel>(m: &mut Machine<M, P>, change: C, at: u16)
    requires { Below 600 m.old }
    ensures { Ends P.make M.memory P.state (on_memory (C.rule change) at) m.old m.new }
{
    let old = m.read(at);
    let (value, flags) = change.change(old, m.cpu.main.f);
    m.internal(1);
    m.write(at, value);
    m.cpu.main.f = flags;
}

pub(crate) fn at_hl<C: Change, M: Memory, P: Panel>(m: &mut Machine<M, P>, change: C)
    requires { Below 500 m.old }
    ensures { Ends P.make M.memory P.state (of.at_hl (C.rule change)) m.old m.new }
{
    let at = Pair::Hl.get(&m.cpu);
    at_address(m, change, at);
}

// The displacement is the next byte.
pub(crate) fn at_index<C: Change, M: Memory, P: Panel>(
    m: &mut Machine<M, P>,
    change: C,
    name: Index,
)
    requires { Below 500 m.old }
    ensures { Ends P.make M.memory P.state (of.at_index (C.rule change) name) m.old m.new }
{
    let at = m.indexed(name);
    m.internal(2);
    at_address(m, change, at);
}

// The displacement stood before the last opcode byte.
pub(crate) fn behind_index<C: Change, M: Memory, P: Panel>(
    m: &mut Machine<M, P>,
    change: C,
    name: Index,
    displacement: u8,
)
    requires { Below 500 m.old }
    ensures { Ends P.make M.memory P.state (of.behind_index (C.rule change) name displacement) m.old m.new }
{
    let at = m.behind(name, displacement);
    at_address(m, change, at);
}
