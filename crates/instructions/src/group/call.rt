// Calls, returns and restarts.
ghost use Rattle.instructions.specs.Length as bytes;
ghost use Rattle.std.specs.Prelude.{◌≡◌};

use registers::operand::Condition;

#[derive(Clone, Copy)]
pub enum Call {
    // CALL mn
    Always,
    // CALL f,mn
    If(Condition),
    // RET
    Return,
    // RET f
    ReturnIf(Condition),
    // RETI
    ReturnFromInterrupt,
    // RETN
    ReturnFromNmi,
    // RST v, with the address that it calls: 00H, 08H and so on to 38H
    Restart(u8),
}

impl Call {
    pub(crate) fn length(self) -> usize
        ensures { result ≡ bytes.of_call self }
    {
        match self {
            Call::Return | Call::ReturnIf(_) | Call::Restart(_) => 1,
            Call::ReturnFromInterrupt | Call::ReturnFromNmi => 2,
            Call::Always | Call::If(_) => 3,
        }
    }
}
