// Which opcode byte of an instruction is undefined, so that it traps.
ghost use Rattle.execution.specs.Undefined as of;
ghost use Rattle.std.specs.Prelude.{◌≡◌, ◌<◌};

#[derive(Clone, Copy, Debug)]
pub(crate) enum Undefined {
    Second = 0,
    Third = 1,
}

impl Undefined {
    // The bit UFO of ITC.
    pub(crate) fn ufo(self) -> u8
        ensures value { result ≡ of.ufo self }
        ensures one_bit { result < 2 }
    {
        self as u8
    }

    // The address that the trap pushes: that byte's, a displacement not counted.
    pub(crate) fn address(self, start: u16) -> u16
        ensures { result ≡ of.address self start }
    {
        match self {
            Undefined::Second => start.wrapping_add(1),
            Undefined::Third => start.wrapping_add(2),
        }
    }
}
