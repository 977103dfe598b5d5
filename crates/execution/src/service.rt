// How an accepted line is served.
ghost use Rattle.execution.specs.Lines as of;
ghost use Rattle.machine.specs.Machines.{Below, Ends};
ghost use Rattle.panel.specs.declared.line.Line.TheVariants as lines;
ghost use Rattle.processor.specs.Interrupt as interrupt;

use flow::call::enter;
use flow::control::mask;
use machine::state::Machine;
use memory::Memory;
use panel::Panel;
use panel::line::Line;
use registers::registers::InterruptMode;

// PC is pushed and read from a table in memory, low byte first.
fn vectored<M: Memory, P: Panel>(m: &mut Machine<M, P>, at: u16)
    requires { Below 300 m.old }
    ensures { Ends P.make M.memory P.state (interrupt.vectored at) m.old m.new }
{
    let back = m.cpu.pc;
    m.push(back);
    m.cpu.pc = m.read_word(at);
}

fn nmi<M: Memory, P: Panel>(m: &mut Machine<M, P>)
    requires { Below 200 m.old }
    ensures { Ends P.make M.memory P.state (interrupt.served lines.Nmi 0) m.old m.new }
{
    m.cpu.ief2 = m.cpu.ief1;
    m.cpu.ief1 = false;
    m.acknowledge(Line::Nmi, 5);
    enter(m, 0x66);
}

// A restart in mode 0, 0038H in mode 1, by the table at I x 256 in mode 2.
fn int0<M: Memory, P: Panel>(m: &mut Machine<M, P>, byte: u8)
    requires { Below 200 m.old }
    ensures { Ends P.make M.memory P.state (λ p. interrupt.int0 p.cpu.im byte p) m.old m.new }
{
    match m.cpu.im {
        InterruptMode::Zero => {
            m.acknowledge(Line::Int0, 5);
            enter(m, u16::from(byte / 8 % 8 * 8));
        }
        InterruptMode::One => {
            m.acknowledge(Line::Int0, 5);
            enter(m, 0x38);
        }
        InterruptMode::Two => by_table(m, Line::Int0, u16::from(byte)),
    }
}

// By the table at I x 256: of INT0 in mode 2 the panel's byte gives the place in it, of INT1 and INT2 it is IL.
fn by_table<M: Memory, P: Panel>(m: &mut Machine<M, P>, name: Line, place: u16)
    requires { Below 200 m.old }
    ensures { Ends P.make M.memory P.state (of.by_table name place) m.old m.new }
{
    m.acknowledge(name, 6);
    let at = (u16::from(m.cpu.i) * 256).wrapping_add(place);
    vectored(m, at);
}

pub(crate) fn serve<M: Memory, P: Panel>(m: &mut Machine<M, P>, line: Line)
    requires { Below 100 m.old }
    ensures { Ends P.make M.memory P.state (interrupt.served line (P.make.int0_byte (P.state m.old.panel))) m.old m.new }
{
    match line {
        Line::Nmi => nmi(m),
        Line::Int0 => {
            mask(&mut m.cpu);
            let byte = m.panel.int0_byte();
            int0(m, byte);
        }
        Line::Int1 => {
            mask(&mut m.cpu);
            by_table(m, Line::Int1, u16::from(m.cpu.il));
        }
        Line::Int2 => {
            mask(&mut m.cpu);
            by_table(m, Line::Int2, u16::from(m.cpu.il) + 2);
        }
    }
}
