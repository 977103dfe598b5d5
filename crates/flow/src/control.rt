// The processor itself, behind the opcode bytes: decimal adjust, the carry, halting and sleeping, interrupts.
ghost use Rattle.instructions.specs.declared.group.control.Control.TheVariants as form;
ghost use Rattle.machine.specs.Machines.{Below, Ends};
ghost use Rattle.processor.specs.Control.{controls};
ghost use Rattle.registers.specs.Registers.{with_ief1, with_ief2};
ghost use Rattle.std.specs.Prelude.{◌≡◌, false};

use arithmetic::carry;
use arithmetic::decimal::adjust;
use instructions::group::control::Control;
use machine::outcome::accumulate;
use machine::state::Machine;
use memory::Memory;
use panel::Panel;
use registers::registers::{Mode, Registers};

// What the processor does to itself.
#[inline(always)]
pub fn control<M: Memory, P: Panel>(m: &mut Machine<M, P>, form: Control)
    requires { Below 400 m.old }
    ensures { Ends P.make M.memory P.state (controls form) m.old m.new }
{
    match form {
        Control::Nothing => {}
        Control::DecimalAdjust => {
            m.internal(1);
            accumulate(&mut m.cpu, adjust);
        }
        Control::SetCarry => accumulate(&mut m.cpu, carry::set),
        Control::ComplementCarry => accumulate(&mut m.cpu, carry::complement),
        Control::Halt => m.cpu.mode = Mode::Halted,
        Control::Sleep => sleep(m),
        Control::DisableInterrupts => mask(&mut m.cpu),
        Control::EnableInterrupts => enable(m),
        Control::Mode(mode) => m.cpu.im = mode,
    }
}

// SLP
fn sleep<M: Memory, P: Panel>(m: &mut Machine<M, P>)
    requires { Below 500 m.old }
    ensures { Ends P.make M.memory P.state (controls form.Sleep) m.old m.new }
{
    m.internal(2);
    m.cpu.mode = Mode::Asleep;
}

// DI, and what a maskable line that is accepted does first.
pub fn mask(cpu: &mut Registers)
    ensures { cpu.new ≡ with_ief1 false (with_ief2 false cpu.old) }
{
    cpu.ief1 = false;
    cpu.ief2 = false;
}

// EI: the next step accepts no maskable line.
fn enable<M: Memory, P: Panel>(m: &mut Machine<M, P>)
    requires { Below 500 m.old }
    ensures { Ends P.make M.memory P.state (controls form.EnableInterrupts) m.old m.new }
{
    m.cpu.ief1 = true;
    m.cpu.ief2 = true;
    m.cpu.ei = true;
}
