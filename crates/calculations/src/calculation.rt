// Arithmetic and logic of bytes and of words, behind their opcode bytes.
ghost use Rattle.instructions.specs.declared.group.calculation.Arithmetic.TheVariants as form;
ghost use Rattle.arithmetic.specs.declared.flags.Flags.{Flags};
ghost use Rattle.cycles.specs.Tree as tree;
ghost use Rattle.machine.specs.Machines.{Below, Ends};
ghost use Rattle.processor.specs.Arithmetic as of;
ghost use Rattle.processor.specs.Arithmetic.{calculates};
ghost use Rattle.processor.specs.Parts as parts;
ghost use Rattle.registers.specs.Operands.{along};
ghost use Rattle.registers.specs.Registers.{with_f};
ghost use Rattle.std.specs.Prelude.{◌≡◌, ℕ};

use crate::byte_change::{at_hl, at_index, in_register};
use crate::change::{Decrement, Increment};
use arithmetic::flags::Flags;
use arithmetic::multiply::multiply;
use arithmetic::operation::Operation;
use arithmetic::{add, logic, port, wide};
use instructions::group::calculation::{Addend, Arithmetic};
use machine::outcome::accumulate;
use machine::state::Machine;
use memory::Memory;
use operands::address::along;
use operands::word::Word;
use panel::Panel;
use registers::operand::{Direction, Index, Pair, Register};
use registers::registers::Registers;

// A calculation.
#[inline(always)]
pub fn calculate<M: Memory, P: Panel>(m: &mut Machine<M, P>, form: Arithmetic)
    requires { Below 400 m.old }
    ensures { Ends P.make M.memory P.state (calculates form) m.old m.new }
{
    match form {
        Arithmetic::Register(operation, from) => operate_register(m, operation, from),
        Arithmetic::Byte(operation) => operate_byte(m, operation),
        Arithmetic::Memory(operation) => operate_memory(m, operation),
        Arithmetic::Indexed(operation, from) => operate_indexed(m, operation, from),
        Arithmetic::IncrementRegister(name) => in_register(m, Increment, name),
        Arithmetic::IncrementMemory => at_hl(m, Increment),
        Arithmetic::IncrementIndexed(name) => at_index(m, Increment, name),
        Arithmetic::DecrementRegister(name) => in_register(m, Decrement, name),
        Arithmetic::DecrementMemory => at_hl(m, Decrement),
        Arithmetic::DecrementIndexed(name) => at_index(m, Decrement, name),
        Arithmetic::TestRegister(with) => {
            let byte = m.register_byte(with);
            test(&mut m.cpu, byte);
        }
        Arithmetic::TestByte => {
            let byte = m.operand();
            test(&mut m.cpu, byte);
        }
        Arithmetic::TestMemory => {
            m.internal(1);
            let byte = m.read_at(Pair::Hl);
            test(&mut m.cpu, byte);
        }
        Arithmetic::Complement => accumulate(&mut m.cpu, logic::complement),
        Arithmetic::Negate => accumulate(&mut m.cpu, add::negate),
        Arithmetic::Multiply(name) => multiply_pair(m, name),
        Arithmetic::AddPair(from) => {
            let with = from.get(&m.cpu);
            on_words(m, wide::add, Pair::Hl, with);
        }
        Arithmetic::AddWithCarryPair(from) => {
            let with = from.get(&m.cpu);
            on_words(m, wide::add_with_carry, Pair::Hl, with);
        }
        Arithmetic::SubtractWithCarryPair(from) => {
            let with = from.get(&m.cpu);
            on_words(m, wide::subtract_with_carry, Pair::Hl, with);
        }
        Arithmetic::AddIndex(to, from) => {
            let with = addend(&m.cpu, from, to);
            on_words(m, wide::add, to, with);
        }
        Arithmetic::IncrementPair(name) => count(m, name, Direction::Up),
        Arithmetic::IncrementIndex(name) => count(m, name, Direction::Up),
        Arithmetic::DecrementPair(name) => count(m, name, Direction::Down),
        Arithmetic::DecrementIndex(name) => count(m, name, Direction::Down),
    }
}

// A and F after one of the eight operations with a byte.
#[inline(always)]
fn operate(cpu: &mut Registers, operation: Operation, byte: u8)
    ensures { cpu.new ≡ of.operated operation byte cpu.old }
{
    accumulate(cpu, |a, flags| operation.apply(a, byte, flags));
}

// ADD A,r and the seven others
fn operate_register<M: Memory, P: Panel>(
    m: &mut Machine<M, P>,
    operation: Operation,
    from: Register,
)
    requires { Below 500 m.old }
    ensures { Ends P.make M.memory P.state (calculates (form.Register operation from)) m.old m.new }
{
    let byte = m.register_byte(from);
    operate(&mut m.cpu, operation, byte);
}

// ADD A,n and the seven others
fn operate_byte<M: Memory, P: Panel>(m: &mut Machine<M, P>, operation: Operation)
    requires { Below 500 m.old }
    ensures { Ends P.make M.memory P.state (calculates (form.Byte operation)) m.old m.new }
{
    let byte = m.operand();
    operate(&mut m.cpu, operation, byte);
}

// ADD A,(HL) and the seven others
fn operate_memory<M: Memory, P: Panel>(m: &mut Machine<M, P>, operation: Operation)
    requires { Below 500 m.old }
    ensures { Ends P.make M.memory P.state (calculates (form.Memory operation)) m.old m.new }
{
    let byte = m.read_at(Pair::Hl);
    operate(&mut m.cpu, operation, byte);
}

// ADD A,(IX+d) and the seven others
fn operate_indexed<M: Memory, P: Panel>(m: &mut Machine<M, P>, operation: Operation, from: Index)
    requires { Below 500 m.old }
    ensures { Ends P.make M.memory P.state (calculates (form.Indexed operation from)) m.old m.new }
{
    let byte = m.read_indexed(from);
    operate(&mut m.cpu, operation, byte);
}

// F after a test of A with a byte.
fn test(cpu: &mut Registers, byte: u8)
    ensures { cpu.new ≡ of.tested byte cpu.old }
{
    accumulate(cpu, |a, flags| port::test(a, byte, flags));
}

fn addend(cpu: &Registers, name: Addend, to: Index) -> u16
    ensures { result ≡ of.addend_of name to cpu.now }
{
    match name {
        Addend::Bc => Pair::Bc.get(cpu),
        Addend::De => Pair::De.get(cpu),
        Addend::Itself => to.get(cpu),
        Addend::Sp => cpu.sp,
    }
}

// MLT ww
fn multiply_pair<M: Memory, P: Panel>(m: &mut Machine<M, P>, name: Pair)
    requires { Below 500 m.old }
    ensures { Ends P.make M.memory P.state (calculates (form.Multiply name)) m.old m.new }
{
    m.internal(11);
    let [high, low] = name.get(&m.cpu).to_be_bytes();
    let (product, _) = multiply(high, low, m.cpu.main.f);
    name.set(&mut m.cpu, product);
}

// ADD HL,ss, ADC HL,ss, SBC HL,ss and ADD IX,xx
fn on_words<W: Word, O: FnOnce(u16, u16, Flags) -> (u16, Flags), M: Memory, P: Panel>(
    m: &mut Machine<M, P>,
    operation: O,
    to: W,
    with: u16,
)
    requires below { Below 500 m.old }
    requires callable { O.IsAlwaysCallable operation }
    ensures { (outcome : ℕ × Flags)
        × O.post operation (W.value to m.old.cpu) with m.old.cpu.main.f outcome
        × Ends P.make M.memory P.state (λ p. tree.internal 4 (parts.finish {n = 2} (λ s. W.with_word to outcome.0 (with_f outcome.1 s)) p)) m.old m.new }
{
    m.internal(4);
    let (word, flags) = operation(to.get(&m.cpu), with, m.cpu.main.f);
    m.cpu.main.f = flags;
    to.set(&mut m.cpu, word);
}

// INC ss, INC IX, DEC ss and DEC IX
fn count<W: Word, M: Memory, P: Panel>(m: &mut Machine<M, P>, name: W, way: Direction)
    requires { Below 500 m.old }
    ensures { Ends {n = 2} P.make M.memory P.state (λ p. tree.internal 1 (parts.finish (λ s. W.with_word name (along way (W.value name s)) s) p)) m.old m.new }
{
    m.internal(1);
    let word = along(way, name.get(&m.cpu));
    name.set(&mut m.cpu, word);
}
