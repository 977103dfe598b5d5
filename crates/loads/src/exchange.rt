// The stack, and exchanges, behind their opcode bytes.
ghost use Rattle.cycles.specs.Tree as tree;
ghost use Rattle.instructions.specs.declared.group.exchange.Exchange.TheVariants as form;
ghost use Rattle.machine.specs.Machines.{Below, Ends};
ghost use Rattle.processor.specs.Exchange.{exchange_stack, exchanges};
ghost use Rattle.processor.specs.Parts as parts;

use instructions::group::exchange::Exchange;
use machine::state::Machine;
use memory::Memory;
use operands::word::Word;
use panel::Panel;
use registers::operand::Pair;
use std::mem::swap;

// An exchange, or the stack.
#[inline(always)]
pub fn exchange<M: Memory, P: Panel>(m: &mut Machine<M, P>, form: Exchange)
    requires { Below 400 m.old }
    ensures { Ends P.make M.memory P.state (exchanges form) m.old m.new }
{
    match form {
        Exchange::Push(from) => push(m, from),
        Exchange::PushIndex(from) => push(m, from),
        Exchange::Pop(to) => pop(m, to),
        Exchange::PopIndex(to) => pop(m, to),
        Exchange::AfAlternate => af_alternate(m),
        Exchange::DeHl => de_hl(m),
        Exchange::Alternates => alternates(m),
        Exchange::StackHl => exchange_top(m, Pair::Hl),
        Exchange::StackIndex(name) => exchange_top(m, name),
    }
}

// PUSH zz and PUSH IX
fn push<M: Memory, P: Panel, W: Word>(m: &mut Machine<M, P>, from: W)
    requires { Below 500 m.old }
    ensures { Ends {n = 2} P.make M.memory P.state (λ p. tree.internal 2 (parts.push (W.value from p.cpu) p tree.done)) m.old m.new }
{
    m.internal(2);
    let value = from.get(&m.cpu);
    m.push(value);
}

// POP zz and POP IX
fn pop<M: Memory, P: Panel, W: Word>(m: &mut Machine<M, P>, to: W)
    requires { Below 500 m.old }
    ensures { Ends {n = 2} P.make M.memory P.state (λ p. parts.pop p (λ v q. parts.finish (W.with_word to v) q)) m.old m.new }
{
    let value = m.pop();
    to.set(&mut m.cpu, value);
}

// EX AF,AF'
fn af_alternate<M: Memory, P: Panel>(m: &mut Machine<M, P>)
    requires { Below 500 m.old }
    ensures { Ends P.make M.memory P.state (exchanges form.AfAlternate) m.old m.new }
{
    m.internal(1);
    swap(&mut m.cpu.main.a, &mut m.cpu.alternate.a);
    swap(&mut m.cpu.main.f, &mut m.cpu.alternate.f);
}

// EX DE,HL
fn de_hl<M: Memory, P: Panel>(m: &mut Machine<M, P>)
    requires { Below 500 m.old }
    ensures { Ends P.make M.memory P.state (exchanges form.DeHl) m.old m.new }
{
    let de = Pair::De.get(&m.cpu);
    let hl = Pair::Hl.get(&m.cpu);
    Pair::De.set(&mut m.cpu, hl);
    Pair::Hl.set(&mut m.cpu, de);
}

// EXX
fn alternates<M: Memory, P: Panel>(m: &mut Machine<M, P>)
    requires { Below 500 m.old }
    ensures { Ends P.make M.memory P.state (exchanges form.Alternates) m.old m.new }
{
    swap(&mut m.cpu.main, &mut m.cpu.alternate);
    // A and F stay
    swap(&mut m.cpu.main.a, &mut m.cpu.alternate.a);
    swap(&mut m.cpu.main.f, &mut m.cpu.alternate.f);
}

// EX (SP),HL and EX (SP),IX: the high byte is written first.
fn exchange_top<M: Memory, P: Panel, W: Word>(m: &mut Machine<M, P>, name: W)
    requires { Below 500 m.old }
    ensures { Ends P.make M.memory P.state (λ p. exchange_stack (W.value name p.cpu) (W.with_word name) p) m.old m.new }
{
    let [low, high] = name.get(&m.cpu).to_le_bytes();
    let sp = m.cpu.sp;
    let old = m.read_word(sp);
    m.internal(1);
    m.write(sp.wrapping_add(1), high);
    m.write(sp, low);
    name.set(&mut m.cpu, old);
}
