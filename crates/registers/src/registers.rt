// Everything that reset sets, but for the window's three bytes, which stand in a record of their own.
ghost use Rattle.registers.specs.Registers.{fresh_registers};
ghost use Rattle.std.specs.Prelude.{◌≡◌};

use arithmetic::flags::Flags;

// A, F and the six byte registers that make pairs; there are two such sets.
#[derive(Clone, Copy, Debug, PartialEq, Eq, Default)]
pub struct RegisterSet {
    pub a: u8,
    pub f: Flags,
    pub b: u8,
    pub c: u8,
    pub d: u8,
    pub e: u8,
    pub h: u8,
    pub l: u8,
}

// How INT0 is served.
#[derive(Clone, Copy, Debug, PartialEq, Eq)]
pub enum InterruptMode {
    Zero,
    One,
    Two,
}

#[derive(Clone, Copy, Debug, PartialEq, Eq)]
pub enum Mode {
    Running,
    Halted,
    Asleep,
}

#[derive(Clone, Copy, Debug, PartialEq, Eq)]
pub struct Registers {
    pub main: RegisterSet,
    pub alternate: RegisterSet,
    pub ix: u16,
    pub iy: u16,
    pub sp: u16,
    pub pc: u16,
    pub i: u8,
    pub r: u8,
    pub ief1: bool,
    pub ief2: bool,
    pub im: InterruptMode,
    pub mode: Mode,
    // whether the last step was EI, which keeps interrupts out of the next one
    pub ei: bool,
    pub il: u8,
    pub itc: u8,
    pub icr: u8,
}

impl Registers {
    // The registers of a card that was just made.
    pub fn new() -> Registers
        ensures { result ≡ fresh_registers }
    {
        Registers {
            main: RegisterSet::default(),
            alternate: RegisterSet::default(),
            ix: 0,
            iy: 0,
            sp: 0,
            pc: 0,
            i: 0,
            r: 0,
            ief1: false,
            ief2: false,
            im: InterruptMode::Zero,
            mode: Mode::Running,
            ei: false,
            il: 0x00,
            itc: 0x39,
            icr: 0x1F,
        }
    }
}
