// Jumps, behind their opcode bytes.
ghost use Rattle.instructions.specs.declared.group.jump.Jump.TheVariants as form;
ghost use Rattle.machine.specs.Machines.{Below, Ends};
ghost use Rattle.processor.specs.Jump as of;
ghost use Rattle.processor.specs.Jump.{jumps};

use instructions::group::jump::Jump;
use machine::state::Machine;
use memory::Memory;
use operands::address::displaced;
use operands::condition::holds;
use operands::word::Word;
use panel::Panel;
use registers::operand::{Condition, Pair};

// A jump.
#[inline(always)]
pub fn jump<M: Memory, P: Panel>(m: &mut Machine<M, P>, form: Jump)
    requires { Below 400 m.old }
    ensures { Ends P.make M.memory P.state (jumps form) m.old m.new }
{
    match form {
        Jump::Always => always(m),
        Jump::If(condition) => jump_if(m, condition),
        Jump::Hl => m.cpu.pc = Pair::Hl.get(&m.cpu),
        Jump::Index(name) => m.cpu.pc = name.get(&m.cpu),
        Jump::Relative => jump_relative(m),
        Jump::RelativeIf(condition) => relative_if(m, condition),
        Jump::Count => count(m),
    }
}

// On by a displacement from the next instruction.
fn relative<M: Memory, P: Panel>(m: &mut Machine<M, P>, displacement: u8)
    requires { Below 600 m.old }
    ensures { Ends P.make M.memory P.state (of.relative displacement) m.old m.new }
{
    m.internal(2);
    m.cpu.pc = displaced(m.cpu.pc, displacement);
}

// JP mn
fn always<M: Memory, P: Panel>(m: &mut Machine<M, P>)
    requires { Below 500 m.old }
    ensures { Ends P.make M.memory P.state (jumps form.Always) m.old m.new }
{
    m.cpu.pc = m.word_operand();
}

// JP f,mn: not taken, it passes its high byte unread.
// The same read in CALL f,mn stays apart: a function of both would answer an Option by two rows of cycles, no plainer form.
fn jump_if<M: Memory, P: Panel>(m: &mut Machine<M, P>, condition: Condition)
    requires { Below 500 m.old }
    ensures { Ends P.make M.memory P.state (jumps (form.If condition)) m.old m.new }
{
    let low = m.operand();
    if holds(condition, m.cpu.main.f) {
        let high = m.operand();
        m.cpu.pc = u16::from_le_bytes([low, high]);
    } else {
        m.cpu.pc = m.cpu.pc.wrapping_add(1);
    }
}

// JR e
fn jump_relative<M: Memory, P: Panel>(m: &mut Machine<M, P>)
    requires { Below 500 m.old }
    ensures { Ends P.make M.memory P.state (jumps form.Relative) m.old m.new }
{
    let displacement = m.operand();
    relative(m, displacement);
}

// JR NZ,e, JR Z,e, JR NC,e and JR C,e
fn relative_if<M: Memory, P: Panel>(m: &mut Machine<M, P>, condition: Condition)
    requires { Below 500 m.old }
    ensures { Ends P.make M.memory P.state (jumps (form.RelativeIf condition)) m.old m.new }
{
    let displacement = m.operand();
    if holds(condition, m.cpu.main.f) {
        relative(m, displacement);
    }
}

// DJNZ e
fn count<M: Memory, P: Panel>(m: &mut Machine<M, P>)
    requires { Below 500 m.old }
    ensures { Ends P.make M.memory P.state (jumps form.Count) m.old m.new }
{
    m.internal(1);
    m.cpu.main.b = m.cpu.main.b.wrapping_sub(1);
    let displacement = m.operand();
    if m.cpu.main.b != 0 {
        relative(m, displacement);
    }
}
