// Input and output, behind their opcode bytes.
ghost use Rattle.instructions.specs.declared.group.port.Port.TheVariants as form;
ghost use Rattle.machine.specs.Machines.{Below, Ends};
ghost use Rattle.arithmetic.specs.Block as rule;
ghost use Rattle.arithmetic.specs.Port as flags;
ghost use Rattle.cycles.specs.Tree as tree;
ghost use Rattle.processor.specs.Parts as parts;
ghost use Rattle.processor.specs.Parts.{taking};
ghost use Rattle.processor.specs.Port as of;
ghost use Rattle.processor.specs.Port.{ports};
ghost use Rattle.registers.specs.declared.operand.Register.TheVariants as register;
ghost use Rattle.registers.specs.Operands.{along, bc, hl, value_of, with_hl};
ghost use Rattle.registers.specs.Ports.{on_cpu};
ghost use Rattle.std.specs.Prelude.{◌≡◌};

use crate::again::{again, again_zero};
use arithmetic::flags::Flags;
use arithmetic::{block, port};
use instructions::group::port::Port;
use machine::outcome::take;
use machine::state::Machine;
use memory::Memory;
use operands::address::along;
use operands::word::Word;
use panel::Panel;
use registers::operand::{Direction, Pair, Register};
use registers::registers::Registers;

// An input or an output.
#[inline(always)]
pub fn on_port<M: Memory, P: Panel>(m: &mut Machine<M, P>, form: Port)
    requires { Below 400 m.old }
    ensures { Ends P.make M.memory P.state (ports form) m.old m.new }
{
    match form {
        Port::InputAccumulator => input_accumulator(m),
        Port::Input(to) => input(m, to),
        Port::InputZero(to) => input_zero(m, to),
        Port::OutputAccumulator => output_accumulator(m),
        Port::Output(from) => output(m, from),
        Port::OutputZero(from) => output_zero(m, from),
        Port::Test => test(m),
        Port::InputBlock(way) => input_block(m, way),
        Port::InputRepeated(way) => {
            input_block(m, way);
            again(m, m.cpu.main.b != 0);
        }
        Port::OutputBlock(way) => output_block(m, way),
        Port::OutputRepeated(way) => {
            output_block(m, way);
            again(m, m.cpu.main.b != 0);
        }
        Port::OutputZeroBlock(way) => output_zero_block(m, way),
        Port::OutputZeroRepeated(way) => output_zero_repeated(m, way),
    }
}

// The registers after a byte went by in a block: HL goes on, and B, lowered, and F are the outcome.
fn counted(cpu: &mut Registers, way: Direction, outcome: (u8, Flags))
    ensures { cpu.new ≡ taking register.B outcome (with_hl (along way (hl cpu.old)) cpu.old) }
{
    let at = along(way, Pair::Hl.get(cpu));
    Pair::Hl.set(cpu, at);
    take(cpu, Register::B, outcome);
}

// C goes on too in the OTIM family. By the byte, and not by operands::address::along, since C would be widened for it and what it
// answers taken modulo 256 and cast.
fn next_port(way: Direction, c: u8) -> u8
    ensures { result ≡ of.along_byte way c }
{
    match way {
        Direction::Up => c.wrapping_add(1),
        Direction::Down => c.wrapping_sub(1),
    }
}

// A byte from a port, for a register and F.
fn receive<M: Memory, P: Panel>(m: &mut Machine<M, P>, port: u16, to: Register)
    requires { Below 600 m.old }
    ensures { Ends {n = 0} P.make M.memory P.state (λ p. parts.input port p (λ b. parts.finish (λ s. taking to (flags.input b s.main.f) s) p)) m.old m.new }
{
    let byte = m.input(port);
    let outcome = port::input(byte, m.cpu.main.f);
    take(&mut m.cpu, to, outcome);
}

// A register's byte for a port, after one state.
fn deliver<M: Memory, P: Panel>(m: &mut Machine<M, P>, port: u16, from: Register)
    requires { Below 600 m.old }
    ensures { Ends {n = 0} P.make M.memory P.state (λ p. tree.internal 1 (parts.output port (value_of from p.cpu) p tree.done)) m.old m.new }
{
    let value = m.register_byte(from);
    m.output(port, value);
}

// IN A,(n)
fn input_accumulator<M: Memory, P: Panel>(m: &mut Machine<M, P>)
    requires { Below 500 m.old }
    ensures { Ends P.make M.memory P.state (ports form.InputAccumulator) m.old m.new }
{
    let low = m.operand();
    let port = u16::from_be_bytes([m.cpu.main.a, low]);
    m.cpu.main.a = m.input(port);
}

// IN r,(C)
fn input<M: Memory, P: Panel>(m: &mut Machine<M, P>, to: Register)
    requires { Below 500 m.old }
    ensures { Ends P.make M.memory P.state (ports (form.Input to)) m.old m.new }
{
    let port = Pair::Bc.get(&m.cpu);
    receive(m, port, to);
}

// IN0 r,(n)
fn input_zero<M: Memory, P: Panel>(m: &mut Machine<M, P>, to: Register)
    requires { Below 500 m.old }
    ensures { Ends P.make M.memory P.state (ports (form.InputZero to)) m.old m.new }
{
    let port = u16::from(m.operand());
    receive(m, port, to);
}

// OUT (n),A
fn output_accumulator<M: Memory, P: Panel>(m: &mut Machine<M, P>)
    requires { Below 500 m.old }
    ensures { Ends P.make M.memory P.state (ports form.OutputAccumulator) m.old m.new }
{
    let low = m.operand();
    let port = u16::from_be_bytes([m.cpu.main.a, low]);
    deliver(m, port, Register::A);
}

// OUT (C),r
fn output<M: Memory, P: Panel>(m: &mut Machine<M, P>, from: Register)
    requires { Below 500 m.old }
    ensures { Ends P.make M.memory P.state (ports (form.Output from)) m.old m.new }
{
    let port = Pair::Bc.get(&m.cpu);
    deliver(m, port, from);
}

// OUT0 (n),r
fn output_zero<M: Memory, P: Panel>(m: &mut Machine<M, P>, from: Register)
    requires { Below 500 m.old }
    ensures { Ends P.make M.memory P.state (ports (form.OutputZero from)) m.old m.new }
{
    let port = u16::from(m.operand());
    deliver(m, port, from);
}

// TSTIO n
fn test<M: Memory, P: Panel>(m: &mut Machine<M, P>)
    requires { Below 500 m.old }
    ensures { Ends P.make M.memory P.state (ports form.Test) m.old m.new }
{
    let mask = m.operand();
    let byte = m.input(u16::from(m.cpu.main.c));
    let (_, flags) = port::test(byte, mask, m.cpu.main.f);
    m.cpu.main.f = flags;
}

// INI and IND
fn input_block<M: Memory, P: Panel>(m: &mut Machine<M, P>, way: Direction)
    requires { Below 550 m.old }
    ensures { Ends P.make M.memory P.state (ports (form.InputBlock way)) m.old m.new }
{
    let port = Pair::Bc.get(&m.cpu);
    let byte = m.input(port);
    m.write_at(Pair::Hl, byte);
    let outcome = block::port(m.cpu.main.b, byte, m.cpu.main.f);
    counted(&mut m.cpu, way, outcome);
}

// A byte goes to port (BC), and is counted.
fn send<M: Memory, P: Panel>(m: &mut Machine<M, P>, way: Direction, byte: u8)
    requires { Below 600 m.old }
    ensures { Ends {n = 0} P.make M.memory P.state (λ p. parts.output (bc p.cpu) byte p (λ q. tree.done (on_cpu (of.counted_down rule.port way byte) q))) m.old m.new }
{
    let port = Pair::Bc.get(&m.cpu);
    m.output(port, byte);
    let outcome = block::port(m.cpu.main.b, byte, m.cpu.main.f);
    counted(&mut m.cpu, way, outcome);
}

// OUTI and OUTD
fn output_block<M: Memory, P: Panel>(m: &mut Machine<M, P>, way: Direction)
    requires { Below 550 m.old }
    ensures { Ends P.make M.memory P.state (ports (form.OutputBlock way)) m.old m.new }
{
    let byte = m.read_at(Pair::Hl);
    send(m, way, byte);
}

// A byte from (HL) to port C with upper half 0, both going on.
fn output_next<M: Memory, P: Panel>(m: &mut Machine<M, P>, way: Direction)
    requires { Below 550 m.old }
    ensures { Ends P.make M.memory P.state (λ p. of.outputs_zero way p tree.done) m.old m.new }
{
    m.internal(1);
    let byte = m.read_at(Pair::Hl);
    m.output(u16::from(m.cpu.main.c), byte);
    let outcome = block::port_zero(m.cpu.main.b, byte, m.cpu.main.f);
    counted(&mut m.cpu, way, outcome);
    m.cpu.main.c = next_port(way, m.cpu.main.c);
}

// OTIM and OTDM
fn output_zero_block<M: Memory, P: Panel>(m: &mut Machine<M, P>, way: Direction)
    requires { Below 500 m.old }
    ensures { Ends P.make M.memory P.state (ports (form.OutputZeroBlock way)) m.old m.new }
{
    output_next(m, way);
    m.internal(1);
}

// OTIMR and OTDMR
fn output_zero_repeated<M: Memory, P: Panel>(m: &mut Machine<M, P>, way: Direction)
    requires { Below 500 m.old }
    ensures { Ends P.make M.memory P.state (ports (form.OutputZeroRepeated way)) m.old m.new }
{
    output_next(m, way);
    again_zero(m, m.cpu.main.b != 0);
}
