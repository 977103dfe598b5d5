// A step: one interrupt, one instruction, or nothing but time.
ghost use Rattle.cycles.specs.Footprint.{Few};
ghost use Rattle.execution.specs.Steps.{Secluded, model, seen, took_line};
ghost use Rattle.machine.specs.Machines.{Below, Ends};
ghost use Rattle.processor.specs.Interrupt as interrupt;
ghost use Rattle.processor.specs.Step as stepping;
ghost use Rattle.registers.specs.declared.registers.Mode.TheVariants as mode;
ghost use Rattle.std.specs.Prelude.{◌≡◌, None, Ok};

use crate::acceptance::{accepted, no_restart, wakes};
use crate::instruction::execute;
use crate::service::serve;
use denial::{Denial, Fault};
use machine::cost::Cost;
use machine::state::Machine;
use memory::Memory;
use panel::Panel;
use panel::line::Line;
use registers::registers::Mode;

// A sleeping card that accepts no line.
fn doze<M: Memory, P: Panel>(m: &mut Machine<M, P>)
    requires { Below 20 m.old }
    ensures { Ends P.make M.memory P.state (λ p. interrupt.turned mode.Asleep None (interrupt.wakes P.make (P.state m.old.panel) p.cpu) (P.make.int0_byte (P.state m.old.panel)) p) m.old m.new }
{
    if wakes(&m.panel, &m.cpu) {
        m.cpu.mode = Mode::Running;
        execute(m);
    } else {
        m.internal(3);
    }
}

// By the mode that the card is in and the line that it accepts.
fn turn<M: Memory, P: Panel>(m: &mut Machine<M, P>, line: Option<Line>)
    requires { Below 20 m.old }
    ensures { Ends P.make M.memory P.state (λ p. interrupt.turned p.cpu.mode line (interrupt.wakes P.make (P.state m.old.panel) p.cpu) (P.make.int0_byte (P.state m.old.panel)) p) m.old m.new }
{
    match (&mut m.cpu.mode, line) {
        (Mode::Running, None) => execute(m),
        (Mode::Running, Some(line)) => serve(m, line),
        (Mode::Halted, None) => m.internal(3),
        // an arm each for halted and asleep: one pattern for both, tried, is not covered by the borrow check
        (mode @ Mode::Halted, Some(line)) => {
            *mode = Mode::Running;
            serve(m, line);
        }
        (Mode::Asleep, None) => doze(m),
        (mode @ Mode::Asleep, Some(line)) => {
            *mode = Mode::Running;
            serve(m, line);
        }
    }
}

// A step that is not denied. Last, the panel is told its states.
fn take<M: Memory, P: Panel>(m: &mut Machine<M, P>, line: Option<Line>) -> Cost
    ensures { seen M.memory P.state (Ok result) m.new ≡ took_line P.make line (model M.memory P.state m.old) }
{
    m.spent = Cost::default();
    m.cpu.ei = false;
    turn(m, line);
    m.panel.tell(m.spent.states);
    m.spent
}

// One step of the card, or a fault that changes nothing: 8 while the panel is full, 9 for an INT0 byte that is no restart.
pub fn step<M: Memory, P: Panel>(m: &mut Machine<M, P>) -> Result<Cost, Fault>
    ensures turn { seen M.memory P.state result m.new ≡ stepping.step P.make (model M.memory P.state m.old) }
    ensures few { Few m.old.window 2 (M.memory m.old.memory) (M.memory m.new.memory) }
    ensures secluded { Secluded P.make (model M.memory P.state m.old) (seen M.memory P.state result m.new) }
{
    let pc = m.cpu.pc;
    if m.panel.full() {
        return Err(Fault {
            denial: Denial::PanelFull,
            pc,
        });
    }
    let line = accepted(&m.panel, &m.cpu);
    if no_restart(&m.panel, m.cpu.im, line) {
        return Err(Fault {
            denial: Denial::NoRestartByte,
            pc,
        });
    }
    Ok(take(m, line))
}
