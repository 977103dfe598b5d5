// Which line a step accepts.
ghost use Rattle.processor.specs.Interrupt as interrupt;
ghost use Rattle.processor.specs.Step as stepping;
ghost use Rattle.std.specs.Prelude.{◌≡◌};

use panel::Panel;
use panel::line::Line;
use registers::registers::{InterruptMode, Registers};

// The first of INT0, INT1 and INT2 that is asked for and that ITC enables.
fn enabled<P: Panel>(panel: &P, cpu: &Registers) -> Option<Line>
    ensures { result ≡ interrupt.enabled P.make (P.state panel.now) cpu.now }
{
    if cpu.itc % 2 == 1 && panel.asks(Line::Int0) {
        Some(Line::Int0)
    } else if cpu.itc / 2 % 2 == 1 && panel.asks(Line::Int1) {
        Some(Line::Int1)
    } else if cpu.itc / 4 % 2 == 1 && panel.asks(Line::Int2) {
        Some(Line::Int2)
    } else {
        None
    }
}

// NMI is always accepted; the others need IEF1, and that the step before was not EI.
pub(crate) fn accepted<P: Panel>(panel: &P, cpu: &Registers) -> Option<Line>
    ensures { result ≡ interrupt.accepted P.make (P.state panel.now) cpu.now }
{
    if panel.asks(Line::Nmi) {
        Some(Line::Nmi)
    } else if cpu.ief1 && !cpu.ei {
        enabled(panel, cpu)
    } else {
        None
    }
}

// A sleeping card with IEF1 = 0 wakes when an enabled line is asked for, and accepts nothing.
pub(crate) fn wakes<P: Panel>(panel: &P, cpu: &Registers) -> bool
    ensures { result ≡ interrupt.wakes P.make (P.state panel.now) cpu.now }
{
    !cpu.ief1 && enabled(panel, cpu).is_some()
}

fn is_restart(byte: u8) -> bool
    ensures { result ≡ interrupt.is_restart byte }
{
    byte / 64 == 3 && byte % 8 == 7
}

// INT0 is accepted in mode 0, and the panel's byte is no restart.
pub(crate) fn no_restart<P: Panel>(panel: &P, mode: InterruptMode, line: Option<Line>) -> bool
    ensures { result ≡ stepping.no_restart line mode (P.make.int0_byte (P.state panel.now)) }
{
    match (line, mode) {
        (Some(Line::Int0), InterruptMode::Zero) => !is_restart(panel.int0_byte()),
        _ => false,
    }
}
