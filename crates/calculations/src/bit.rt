// Single bits, behind their opcode bytes.
ghost use Rattle.machine.specs.Machines.{Below, Ends};
ghost use Rattle.processor.specs.Bit as of;
ghost use Rattle.processor.specs.Bit.{bits_of};
ghost use Rattle.std.specs.Prelude.{◌≡◌};

use crate::byte_change::{at_hl, behind_index, in_register};
use crate::change::{Reset, Set};
use arithmetic::bits;
use instructions::group::bit::Bit;
use machine::state::Machine;
use memory::Memory;
use operands::register::byte;
use panel::Panel;
use registers::operand::Pair;
use registers::registers::Registers;

// A test, reset or set of a bit; the displacement, where there is one, stood before the last opcode byte.
#[inline(always)]
pub fn on_bit<M: Memory, P: Panel>(m: &mut Machine<M, P>, form: Bit, displacement: u8)
    requires { Below 400 m.old }
    ensures { Ends P.make M.memory P.state (bits_of form displacement) m.old m.new }
{
    match form {
        Bit::TestRegister(number, register) => {
            let value = byte(&m.cpu, register);
            test(&mut m.cpu, number, value);
        }
        Bit::TestMemory(number) => {
            let value = m.read_at(Pair::Hl);
            test(&mut m.cpu, number, value);
        }
        Bit::TestIndexed(number, name) => {
            let at = m.behind(name, displacement);
            let value = m.read(at);
            test(&mut m.cpu, number, value);
        }
        Bit::ResetRegister(number, register) => in_register(m, Reset(number), register),
        Bit::ResetMemory(number) => at_hl(m, Reset(number)),
        Bit::ResetIndexed(number, name) => behind_index(m, Reset(number), name, displacement),
        Bit::SetRegister(number, register) => in_register(m, Set(number), register),
        Bit::SetMemory(number) => at_hl(m, Set(number)),
        Bit::SetIndexed(number, name) => behind_index(m, Set(number), name, displacement),
    }
}

// F after a test of one bit.
fn test(cpu: &mut Registers, number: u8, value: u8)
    ensures { cpu.new ≡ of.bit_tested number value cpu.old }
{
    let (_, flags) = bits::test(number, value, cpu.main.f);
    cpu.main.f = flags;
}
