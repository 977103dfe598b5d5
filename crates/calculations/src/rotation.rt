// Rotates and shifts, behind their opcode bytes.
ghost use Rattle.instructions.specs.declared.group.rotation.Rotation.TheVariants as form;
ghost use Rattle.cycles.specs.Tree as tree;
ghost use Rattle.machine.specs.Machines.{Below, Ends};
ghost use Rattle.processor.specs.Parts.{finish};
ghost use Rattle.processor.specs.Rotate.{rotates};
ghost use Rattle.registers.specs.Operands.{hl};
ghost use Rattle.registers.specs.Registers.{with_a, with_f};

use crate::byte_change::{at_hl, behind_index, in_register};
use arithmetic::flags::Flags;
use arithmetic::rotate::{Rotate, rld, rrd};
use instructions::group::rotation::Rotation;
use machine::outcome::accumulate;
use machine::state::Machine;
use memory::Memory;
use panel::Panel;
use registers::operand::{Pair, Register};

// A rotate or a shift; the displacement, where there is one, stood before the last opcode byte.
#[inline(always)]
pub fn rotate<M: Memory, P: Panel>(m: &mut Machine<M, P>, form: Rotation, displacement: u8)
    requires { Below 400 m.old }
    ensures { Ends P.make M.memory P.state (rotates form displacement) m.old m.new }
{
    match form {
        Rotation::Accumulator(kind) => accumulate(
            &mut m.cpu,
            |a, flags| kind.accumulator(a, flags),
        ),
        Rotation::Register(kind, register) => in_register(m, kind, register),
        Rotation::Memory(kind) => at_hl(m, kind),
        Rotation::Indexed(kind, name) => behind_index(m, kind, name, displacement),
        Rotation::DigitsLeft => {
            let byte = m.read_at(Pair::Hl);
            put_digits(m, rld(m.cpu.main.a, byte, m.cpu.main.f));
        }
        Rotation::DigitsRight => {
            let byte = m.read_at(Pair::Hl);
            put_digits(m, rrd(m.cpu.main.a, byte, m.cpu.main.f));
        }
    }
}

// Three digits turned through A and the byte at (HL), for RLD and RRD: what A and the byte become, and F.
fn put_digits<M: Memory, P: Panel>(m: &mut Machine<M, P>, turned: ((u8, u8), Flags))
    requires { Below 500 m.old }
    ensures { Ends {n = 1} P.make M.memory P.state
        (λ p. tree.internal 4 (tree.write (hl p.cpu) turned.0.1 (finish (λ s. with_a turned.0.0 (with_f turned.1 s)) p)))
        m.old m.new }
{
    let ((a, value), flags) = turned;
    m.internal(4);
    m.write_at(Pair::Hl, value);
    m.cpu.main.a = a;
    m.cpu.main.f = flags;
}
