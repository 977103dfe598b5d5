// The instruction at PC, by the pages of the opcode map; what is on none of them traps.
ghost use Rattle.execution.specs.Undefined as undefined;
ghost use Rattle.machine.specs.Machines.{Below, Ends};
ghost use Rattle.processor.specs.Instruction as of;

use crate::undefined::Undefined;
use calculations::bit::on_bit;
use calculations::calculation::calculate;
use calculations::rotation::rotate;
use decoder::page::{First, Page, Second};
use decoder::{cb_page, ed_page, indexed_cb_page, indexed_page, main_page};
use flow::call::call_or_return;
use flow::control::control;
use flow::jump::jump;
use instructions::instruction::Instruction;
use loads::exchange::exchange;
use loads::load::load;
use machine::state::Machine;
use memory::Memory;
use panel::Panel;
use registers::operand::Index;
use transfers::block::on_block;
use transfers::port::on_port;

// The displacement, where there is one, stood before the last opcode byte; where there is none it is 0, as in the definition: an Option
// would be taken apart in each form that asks for it, where it is never None. Inlined, so that on each page an opcode byte leads
// straight to its instruction.
#[inline(always)]
fn carry_out<M: Memory, P: Panel>(m: &mut Machine<M, P>, instruction: Instruction, displacement: u8)
    requires { Below 300 m.old }
    ensures { Ends P.make M.memory P.state (of.carried_out instruction displacement) m.old m.new }
{
    match instruction {
        Instruction::Load(form) => load(m, form),
        Instruction::Exchange(form) => exchange(m, form),
        Instruction::Arithmetic(form) => calculate(m, form),
        Instruction::Rotate(form) => rotate(m, form, displacement),
        Instruction::Bit(form) => on_bit(m, form, displacement),
        Instruction::Jump(form) => jump(m, form),
        Instruction::Call(form) => call_or_return(m, form),
        Instruction::Block(form) => on_block(m, form),
        Instruction::Port(form) => on_port(m, form),
        Instruction::Control(form) => control(m, form),
    }
}

// Not inlined, nor are the pages behind a prefix: the first byte's page then needs no more registers than a call may change, and each of
// its steps saves none.
//
// UFO says whether the third opcode byte is undefined, or the second. The address of that byte is pushed.
#[inline(never)]
fn trap<M: Memory, P: Panel>(m: &mut Machine<M, P>, byte: Undefined, start: u16)
    requires { Below 300 m.old }
    ensures { Ends P.make M.memory P.state (of.trapped (undefined.ufo byte) (undefined.address byte start)) m.old m.new }
{
    m.cpu.itc = 128 + byte.ufo() * 64 + m.cpu.itc % 64;
    m.push(byte.address(start));
    m.cpu.pc = 0;
}

// What the last opcode byte of the instruction from `start` on was decoded to, or which byte is undefined.
#[inline(always)]
fn carry_out_or_trap<M: Memory, P: Panel>(
    m: &mut Machine<M, P>,
    decoded: Result<Instruction, Undefined>,
    displacement: u8,
    start: u16,
)
    requires { Below 300 m.old }
    ensures { Ends P.make M.memory P.state (undefined.carried_out_or_trapped decoded displacement start) m.old m.new }
{
    match decoded {
        Ok(instruction) => carry_out(m, instruction, displacement),
        Err(byte) => trap(m, byte, start),
    }
}

// Behind DDH CBH and FDH CBH the displacement comes before the third opcode byte.
#[inline(never)]
fn third<M: Memory, P: Panel>(m: &mut Machine<M, P>, name: Index, start: u16)
    requires { Below 250 m.old }
    ensures { Ends P.make M.memory P.state (of.third name start) m.old m.new }
{
    let displacement = m.operand();
    let byte = m.opcode();
    let decoded = indexed_cb_page::decode(name, byte).ok_or(Undefined::Third);
    carry_out_or_trap(m, decoded, displacement, start);
}

fn behind_index<M: Memory, P: Panel>(m: &mut Machine<M, P>, second: Second, name: Index, start: u16)
    requires { Below 200 m.old }
    ensures { Ends P.make M.memory P.state (of.behind_index second name start) m.old m.new }
{
    match second {
        Second::Instruction(instruction) => carry_out(m, instruction, 0),
        Second::BitsPrefix => third(m, name, start),
        Second::Undefined => trap(m, Undefined::Second, start),
    }
}

#[inline(never)]
fn on_page<M: Memory, P: Panel>(m: &mut Machine<M, P>, page: Page, start: u16)
    requires { Below 150 m.old }
    ensures { Ends P.make M.memory P.state (of.on_page page start) m.old m.new }
{
    let byte = m.opcode();
    match page {
        Page::Bits => {
            let decoded = cb_page::decode(byte).ok_or(Undefined::Second);
            carry_out_or_trap(m, decoded, 0, start);
        }
        Page::Extended => {
            let decoded = ed_page::decode(byte).ok_or(Undefined::Second);
            carry_out_or_trap(m, decoded, 0, start);
        }
        Page::Indexed(name) => behind_index(m, indexed_page::decode(name, byte), name, start),
    }
}

fn behind_first<M: Memory, P: Panel>(m: &mut Machine<M, P>, first: First, start: u16)
    requires { Below 100 m.old }
    ensures { Ends P.make M.memory P.state (of.behind_first first start) m.old m.new }
{
    match first {
        First::Instruction(instruction) => carry_out(m, instruction, 0),
        First::Prefix(page) => on_page(m, page, start),
    }
}

pub(crate) fn execute<M: Memory, P: Panel>(m: &mut Machine<M, P>)
    requires { Below 50 m.old }
    ensures { Ends P.make M.memory P.state of.executed m.old m.new }
{
    let start = m.cpu.pc;
    let byte = m.opcode();
    behind_first(m, main_page::decode(byte), start);
}
