// Blocks of memory, behind their opcode bytes.
ghost use Rattle.instructions.specs.declared.group.block.Block.TheVariants as form;
ghost use Rattle.machine.specs.Machines.{Below, Ends, Gives, got};
ghost use Rattle.processor.specs.Block as of;
ghost use Rattle.processor.specs.Block.{blocks};
ghost use Rattle.registers.specs.Operands.{along, bc, hl, with_bc, with_hl};
ghost use Rattle.registers.specs.Registers.{down};
ghost use Rattle.std.specs.Prelude.{◌≡◌};

use crate::again::again;
use arithmetic::block::{compare, transfer};
use instructions::group::block::Block;
use machine::outcome::accumulate;
use machine::state::Machine;
use memory::Memory;
use operands::address::along;
use operands::word::Word;
use panel::Panel;
use registers::operand::{Direction, Pair};
use registers::registers::Registers;

// A transfer or a comparison.
#[inline(always)]
pub fn on_block<M: Memory, P: Panel>(m: &mut Machine<M, P>, form: Block)
    requires { Below 400 m.old }
    ensures { Ends P.make M.memory P.state (blocks form) m.old m.new }
{
    match form {
        Block::Transfer(way) => transfer_byte(m, way),
        Block::TransferRepeated(way) => transfer_repeated(m, way),
        Block::Compare(way) => compare_once(m, way),
        Block::CompareRepeated(way) => compare_repeated(m, way),
    }
}

// HL goes on and BC is lowered, which is answered.
fn passed(cpu: &mut Registers, way: Direction) -> u16
    ensures left { result ≡ down (bc cpu.old) 1 }
    ensures counted { cpu.new ≡ with_bc (down (bc cpu.old) 1) (with_hl (along way (hl cpu.old)) cpu.old) }
{
    let left = Pair::Bc.get(cpu).wrapping_sub(1);
    let from = along(way, Pair::Hl.get(cpu));
    Pair::Hl.set(cpu, from);
    Pair::Bc.set(cpu, left);
    left
}

// The registers after a byte was moved.
fn moved(cpu: &mut Registers, way: Direction, byte: u8)
    ensures { cpu.new ≡ of.transferred way byte cpu.old }
{
    let left = passed(cpu, way);
    let to = along(way, Pair::De.get(cpu));
    Pair::De.set(cpu, to);
    let (_, flags) = transfer(byte, left, cpu.main.f);
    cpu.main.f = flags;
}

// The registers after a byte was compared with A.
fn matched(cpu: &mut Registers, way: Direction, byte: u8)
    ensures { cpu.new ≡ of.compared way byte cpu.old }
{
    let left = passed(cpu, way);
    accumulate(cpu, |a, flags| compare(a, byte, left, flags));
}

// LDI and LDD
#[inline(always)]
fn transfer_byte<M: Memory, P: Panel>(m: &mut Machine<M, P>, way: Direction)
    requires { Below 550 m.old }
    ensures { Ends P.make M.memory P.state (blocks (form.Transfer way)) m.old m.new }
{
    let byte = m.read_at(Pair::Hl);
    m.write_at(Pair::De, byte);
    moved(&mut m.cpu, way, byte);
}

// LDIR and LDDR
fn transfer_repeated<M: Memory, P: Panel>(m: &mut Machine<M, P>, way: Direction)
    requires { Below 500 m.old }
    ensures { Ends P.make M.memory P.state (blocks (form.TransferRepeated way)) m.old m.new }
{
    transfer_byte(m, way);
    let left = Pair::Bc.get(&m.cpu);
    again(m, left != 0);
}

// A is compared with the byte at (HL), which is answered.
fn compare_byte<M: Memory, P: Panel>(m: &mut Machine<M, P>, way: Direction) -> u8
    requires { Below 550 m.old }
    ensures { Gives {n = 0} P.make M.memory P.state (λ p. of.compares way p got) m.old result m.new }
{
    let byte = m.read_at(Pair::Hl);
    m.internal(3);
    matched(&mut m.cpu, way, byte);
    byte
}

// CPI and CPD
fn compare_once<M: Memory, P: Panel>(m: &mut Machine<M, P>, way: Direction)
    requires { Below 500 m.old }
    ensures { Ends P.make M.memory P.state (blocks (form.Compare way)) m.old m.new }
{
    compare_byte(m, way);
}

// CPIR and CPDR
fn compare_repeated<M: Memory, P: Panel>(m: &mut Machine<M, P>, way: Direction)
    requires { Below 500 m.old }
    ensures { Ends P.make M.memory P.state (blocks (form.CompareRepeated way)) m.old m.new }
{
    let byte = compare_byte(m, way);
    let more = Pair::Bc.get(&m.cpu) != 0 && m.cpu.main.a != byte;
    again(m, more);
}
