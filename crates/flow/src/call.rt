// Calls, returns and restarts, behind their opcode bytes.
ghost use Rattle.instructions.specs.declared.group.call.Call.TheVariants as form;
ghost use Rattle.machine.specs.Machines.{Below, Ends};
ghost use Rattle.processor.specs.Call as of;
ghost use Rattle.processor.specs.Call.{calls};

use instructions::group::call::Call;
use machine::state::Machine;
use memory::Memory;
use operands::condition::holds;
use panel::Panel;
use registers::operand::Condition;

// A call, a return or a restart.
#[inline(always)]
pub fn call_or_return<M: Memory, P: Panel>(m: &mut Machine<M, P>, form: Call)
    requires { Below 400 m.old }
    ensures { Ends P.make M.memory P.state (calls form) m.old m.new }
{
    match form {
        Call::Always => always(m),
        Call::If(condition) => call_if(m, condition),
        Call::Return | Call::ReturnFromInterrupt => back(m),
        Call::ReturnIf(condition) => return_if(m, condition),
        Call::ReturnFromNmi => return_from_nmi(m),
        Call::Restart(to) => restart(m, to),
    }
}

// PC is pushed, and goes to an address.
pub fn enter<M: Memory, P: Panel>(m: &mut Machine<M, P>, to: u16)
    requires { Below 600 m.old }
    ensures { Ends P.make M.memory P.state (of.enter to) m.old m.new }
{
    let back = m.cpu.pc;
    m.push(back);
    m.cpu.pc = to;
}

// RET and RETI. Not inlined, nor is RST, so that the decoder of the first byte saves no registers.
#[inline(never)]
fn back<M: Memory, P: Panel>(m: &mut Machine<M, P>)
    requires { Below 600 m.old }
    ensures { Ends P.make M.memory P.state of.returns m.old m.new }
{
    m.cpu.pc = m.pop();
}

// CALL mn
fn always<M: Memory, P: Panel>(m: &mut Machine<M, P>)
    requires { Below 500 m.old }
    ensures { Ends P.make M.memory P.state (calls form.Always) m.old m.new }
{
    let to = m.word_operand();
    m.internal(1);
    enter(m, to);
}

// CALL f,mn: not taken, it passes its high byte unread. Why it does not share that with JP f,mn stands there.
fn call_if<M: Memory, P: Panel>(m: &mut Machine<M, P>, condition: Condition)
    requires { Below 500 m.old }
    ensures { Ends P.make M.memory P.state (calls (form.If condition)) m.old m.new }
{
    let low = m.operand();
    if holds(condition, m.cpu.main.f) {
        let high = m.operand();
        m.internal(1);
        enter(m, u16::from_le_bytes([low, high]));
    } else {
        m.cpu.pc = m.cpu.pc.wrapping_add(1);
    }
}

// RET f
fn return_if<M: Memory, P: Panel>(m: &mut Machine<M, P>, condition: Condition)
    requires { Below 500 m.old }
    ensures { Ends P.make M.memory P.state (calls (form.ReturnIf condition)) m.old m.new }
{
    if holds(condition, m.cpu.main.f) {
        m.internal(1);
        back(m);
    } else {
        m.internal(2);
    }
}

// RETN
fn return_from_nmi<M: Memory, P: Panel>(m: &mut Machine<M, P>)
    requires { Below 500 m.old }
    ensures { Ends P.make M.memory P.state (calls form.ReturnFromNmi) m.old m.new }
{
    back(m);
    m.cpu.ief1 = m.cpu.ief2;
}

// RST v
#[inline(never)]
fn restart<M: Memory, P: Panel>(m: &mut Machine<M, P>, to: u8)
    requires { Below 500 m.old }
    ensures { Ends P.make M.memory P.state (calls (form.Restart to)) m.old m.new }
{
    m.internal(2);
    enter(m, u16::from(to));
}
