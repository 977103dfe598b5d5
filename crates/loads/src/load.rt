// Loads, behind their opcode bytes.
ghost use Rattle.arithmetic.specs.Port as flags;
ghost use Rattle.cycles.specs.Tree as tree;
ghost use Rattle.instructions.specs.declared.group.load.Load.TheVariants as form;
ghost use Rattle.machine.specs.Machines.{Below, Ends};
ghost use Rattle.processor.specs.Load.{loads};
ghost use Rattle.processor.specs.Parts as parts;
ghost use Rattle.registers.specs.declared.operand.Register.TheVariants as register;
ghost use Rattle.registers.specs.Registers.{with_sp};

use arithmetic::port::load as shown;
use instructions::group::load::Load;
use machine::outcome::take;
use machine::state::Machine;
use memory::Memory;
use operands::pair::pointer;
use operands::register::{byte, set_byte};
use operands::word::Word;
use panel::Panel;
use registers::operand::{Index, Pair, Pointer, Register};

// A load. Two opcodes load HL from an address, and two store it; they differ only in what was fetched before.
#[inline(always)]
pub fn load<M: Memory, P: Panel>(m: &mut Machine<M, P>, form: Load)
    requires { Below 400 m.old }
    ensures { Ends P.make M.memory P.state (loads form) m.old m.new }
{
    match form {
        Load::RegisterRegister(to, from) => register_register(m, to, from),
        Load::RegisterByte(to) => register_byte(m, to),
        Load::RegisterMemory(to) => register_memory(m, to),
        Load::RegisterIndexed(to, from) => register_indexed(m, to, from),
        Load::MemoryRegister(from) => memory_register(m, from),
        Load::MemoryByte => memory_byte(m),
        Load::IndexedRegister(to, from) => indexed_register(m, to, from),
        Load::IndexedByte(to) => indexed_byte(m, to),
        Load::AccumulatorPointer(from) => accumulator_pointer(m, from),
        Load::PointerAccumulator(to) => pointer_accumulator(m, to),
        Load::AccumulatorAddress => accumulator_address(m),
        Load::AddressAccumulator => address_accumulator(m),
        Load::AccumulatorI => accumulator_shown(m, m.cpu.i),
        Load::AccumulatorR => accumulator_shown(m, m.cpu.r),
        Load::IAccumulator => m.cpu.i = m.cpu.main.a,
        Load::RAccumulator => m.cpu.r = m.cpu.main.a,
        Load::PairWord(to) => word_immediate(m, to),
        Load::IndexWord(to) => word_immediate(m, to),
        Load::HlAddress => word_address(m, Pair::Hl),
        Load::PairAddress(to) => word_address(m, to),
        Load::IndexAddress(to) => word_address(m, to),
        Load::AddressHl => address_word(m, Pair::Hl),
        Load::AddressPair(from) => address_word(m, from),
        Load::AddressIndex(from) => address_word(m, from),
        Load::SpHl => sp_word(m, Pair::Hl),
        Load::SpIndex(from) => sp_word(m, from),
    }
}

// LD r,r'
fn register_register<M: Memory, P: Panel>(m: &mut Machine<M, P>, to: Register, from: Register)
    requires { Below 500 m.old }
    ensures { Ends P.make M.memory P.state (loads (form.RegisterRegister to from)) m.old m.new }
{
    let value = m.register_byte(from);
    set_byte(&mut m.cpu, to, value);
}

// LD r,n
fn register_byte<M: Memory, P: Panel>(m: &mut Machine<M, P>, to: Register)
    requires { Below 500 m.old }
    ensures { Ends P.make M.memory P.state (loads (form.RegisterByte to)) m.old m.new }
{
    let value = m.operand();
    set_byte(&mut m.cpu, to, value);
}

// LD r,(HL)
fn register_memory<M: Memory, P: Panel>(m: &mut Machine<M, P>, to: Register)
    requires { Below 500 m.old }
    ensures { Ends P.make M.memory P.state (loads (form.RegisterMemory to)) m.old m.new }
{
    let value = m.read_at(Pair::Hl);
    set_byte(&mut m.cpu, to, value);
}

// LD r,(IX+d)
fn register_indexed<M: Memory, P: Panel>(m: &mut Machine<M, P>, to: Register, from: Index)
    requires { Below 500 m.old }
    ensures { Ends P.make M.memory P.state (loads (form.RegisterIndexed to from)) m.old m.new }
{
    let value = m.read_indexed(from);
    set_byte(&mut m.cpu, to, value);
}

// LD (HL),r
fn memory_register<M: Memory, P: Panel>(m: &mut Machine<M, P>, from: Register)
    requires { Below 500 m.old }
    ensures { Ends P.make M.memory P.state (loads (form.MemoryRegister from)) m.old m.new }
{
    let value = m.register_byte(from);
    m.write_at(Pair::Hl, value);
}

// LD (HL),n
fn memory_byte<M: Memory, P: Panel>(m: &mut Machine<M, P>)
    requires { Below 500 m.old }
    ensures { Ends P.make M.memory P.state (loads form.MemoryByte) m.old m.new }
{
    let value = m.operand();
    m.write_at(Pair::Hl, value);
}

// LD (IX+d),r
fn indexed_register<M: Memory, P: Panel>(m: &mut Machine<M, P>, to: Index, from: Register)
    requires { Below 500 m.old }
    ensures { Ends P.make M.memory P.state (loads (form.IndexedRegister to from)) m.old m.new }
{
    let at = m.indexed(to);
    m.internal(3);
    let value = byte(&m.cpu, from);
    m.write(at, value);
}

// LD (IX+d),n
fn indexed_byte<M: Memory, P: Panel>(m: &mut Machine<M, P>, to: Index)
    requires { Below 500 m.old }
    ensures { Ends P.make M.memory P.state (loads (form.IndexedByte to)) m.old m.new }
{
    let at = m.indexed(to);
    let value = m.operand();
    m.write(at, value);
}

// LD A,(BC) and LD A,(DE)
fn accumulator_pointer<M: Memory, P: Panel>(m: &mut Machine<M, P>, from: Pointer)
    requires { Below 500 m.old }
    ensures { Ends P.make M.memory P.state (loads (form.AccumulatorPointer from)) m.old m.new }
{
    let at = pointer(&m.cpu, from);
    m.cpu.main.a = m.read(at);
}

// LD (BC),A and LD (DE),A
fn pointer_accumulator<M: Memory, P: Panel>(m: &mut Machine<M, P>, to: Pointer)
    requires { Below 500 m.old }
    ensures { Ends P.make M.memory P.state (loads (form.PointerAccumulator to)) m.old m.new }
{
    m.internal(1);
    let at = pointer(&m.cpu, to);
    m.write(at, m.cpu.main.a);
}

// LD A,(mn)
fn accumulator_address<M: Memory, P: Panel>(m: &mut Machine<M, P>)
    requires { Below 500 m.old }
    ensures { Ends P.make M.memory P.state (loads form.AccumulatorAddress) m.old m.new }
{
    let at = m.word_operand();
    m.cpu.main.a = m.read(at);
}

// LD (mn),A
fn address_accumulator<M: Memory, P: Panel>(m: &mut Machine<M, P>)
    requires { Below 500 m.old }
    ensures { Ends P.make M.memory P.state (loads form.AddressAccumulator) m.old m.new }
{
    let at = m.word_operand();
    m.internal(1);
    m.write(at, m.cpu.main.a);
}

// LD A,I and LD A,R
fn accumulator_shown<M: Memory, P: Panel>(m: &mut Machine<M, P>, byte: u8)
    requires { Below 500 m.old }
    ensures { Ends {n = 2} P.make M.memory P.state (λ p. parts.finish (λ s. parts.taking register.A (flags.load byte s.ief2 s.main.f) s) p) m.old m.new }
{
    let outcome = shown(byte, m.cpu.ief2, m.cpu.main.f);
    take(&mut m.cpu, Register::A, outcome);
}

// LD dd,mn and LD IX,mn
fn word_immediate<M: Memory, P: Panel, W: Word>(m: &mut Machine<M, P>, to: W)
    requires { Below 500 m.old }
    ensures { Ends {n = 2} P.make M.memory P.state (λ p. parts.word_operand p (λ v q. parts.finish (W.with_word to v) q)) m.old m.new }
{
    let value = m.word_operand();
    to.set(&mut m.cpu, value);
}

// LD dd,(mn) and LD IX,(mn)
fn word_address<M: Memory, P: Panel, W: Word>(m: &mut Machine<M, P>, to: W)
    requires { Below 500 m.old }
    ensures { Ends {n = 2} P.make M.memory P.state (λ p. parts.word_operand p (λ a q. parts.read_word a (λ v. parts.finish (W.with_word to v) q))) m.old m.new }
{
    let at = m.word_operand();
    let value = m.read_word(at);
    to.set(&mut m.cpu, value);
}

// LD (mn),ss and LD (mn),IX
fn address_word<M: Memory, P: Panel, W: Word>(m: &mut Machine<M, P>, from: W)
    requires { Below 500 m.old }
    ensures { Ends {n = 2} P.make M.memory P.state (λ p. parts.word_operand p (λ a q. tree.internal 1 (parts.write_word a (W.value from q.cpu) (tree.done q)))) m.old m.new }
{
    let at = m.word_operand();
    m.internal(1);
    let value = from.get(&m.cpu);
    m.write_word(at, value);
}

// LD SP,HL and LD SP,IX
fn sp_word<M: Memory, P: Panel, W: Word>(m: &mut Machine<M, P>, from: W)
    requires { Below 500 m.old }
    ensures { Ends {n = 2} P.make M.memory P.state (λ p. tree.internal 1 (parts.finish (λ s. with_sp (W.value from s) s) p)) m.old m.new }
{
    m.internal(1);
    m.cpu.sp = from.get(&m.cpu);
}
