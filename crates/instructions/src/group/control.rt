// Special functions: decimal adjust, the carry, and the processor itself.
ghost use Rattle.instructions.specs.Length as bytes;
ghost use Rattle.std.specs.Prelude.{◌≡◌};

use registers::registers::InterruptMode;

#[derive(Clone, Copy)]
pub enum Control {
    // NOP
    Nothing,
    // DAA
    DecimalAdjust,
    // SCF
    SetCarry,
    // CCF
    ComplementCarry,
    // HALT
    Halt,
    // SLP
    Sleep,
    // DI
    DisableInterrupts,
    // EI
    EnableInterrupts,
    // IM 0, IM 1 and IM 2
    Mode(InterruptMode),
}

impl Control {
    pub(crate) fn length(self) -> usize
        ensures { result ≡ bytes.of_control self }
    {
        match self {
            Control::Nothing
            | Control::DecimalAdjust
            | Control::SetCarry
            | Control::ComplementCarry
            | Control::Halt
            | Control::DisableInterrupts
            | Control::EnableInterrupts => 1,
            Control::Sleep | Control::Mode(_) => 2,
        }
    }
}
