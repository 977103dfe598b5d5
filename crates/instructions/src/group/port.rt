// Input and output, also of blocks.
ghost use Rattle.instructions.specs.Length as bytes;
ghost use Rattle.std.specs.Prelude.{◌≡◌};

use registers::operand::{Direction, Register};

#[derive(Clone, Copy)]
pub enum Port {
    // IN A,(n)
    InputAccumulator,
    // IN r,(C)
    Input(Register),
    // IN0 r,(n)
    InputZero(Register),
    // OUT (n),A
    OutputAccumulator,
    // OUT (C),r
    Output(Register),
    // OUT0 (n),r
    OutputZero(Register),
    // TSTIO n
    Test,
    // INI and IND
    InputBlock(Direction),
    // INIR and INDR
    InputRepeated(Direction),
    // OUTI and OUTD
    OutputBlock(Direction),
    // OTIR and OTDR
    OutputRepeated(Direction),
    // OTIM and OTDM
    OutputZeroBlock(Direction),
    // OTIMR and OTDMR
    OutputZeroRepeated(Direction),
}

impl Port {
    pub(crate) fn length(self) -> usize
        ensures { result ≡ bytes.of_port self }
    {
        match self {
            Port::InputAccumulator
            | Port::Input(_)
            | Port::OutputAccumulator
            | Port::Output(_)
            | Port::InputBlock(_)
            | Port::InputRepeated(_)
            | Port::OutputBlock(_)
            | Port::OutputRepeated(_)
            | Port::OutputZeroBlock(_)
            | Port::OutputZeroRepeated(_) => 2,
            Port::InputZero(_) | Port::OutputZero(_) | Port::Test => 3,
        }
    }
}
