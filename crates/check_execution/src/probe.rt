// A panel for tests: the test says what it asks for and answers, and it keeps what was done to it.
ghost use Rattle.check_execution.specs.Probes.{is_asked, with_asked};
ghost use Rattle.std.specs.Prelude.{◌≡◌};

use panel::line::Line;
use panel::sent::Sent;

pub mod as_panel;

// The lines that it asks for.
#[derive(Clone, Copy, Debug, PartialEq, Eq, Default)]
pub struct Asked {
    pub nmi: bool,
    pub int0: bool,
    pub int1: bool,
    pub int2: bool,
}

impl Asked {
    pub fn by(&self, line: Line) -> bool
        ensures { result ≡ is_asked self.now line }
    {
        match line {
            Line::Nmi => self.nmi,
            Line::Int0 => self.int0,
            Line::Int1 => self.int1,
            Line::Int2 => self.int2,
        }
    }

    pub fn set(&mut self, line: Line, asked: bool)
        ensures { self.new ≡ with_asked line asked self.old }
    {
        match line {
            Line::Nmi => self.nmi = asked,
            Line::Int0 => self.int0 = asked,
            Line::Int1 => self.int1 = asked,
            Line::Int2 => self.int2 = asked,
        }
    }
}

#[derive(Clone, Copy, Debug, PartialEq, Eq)]
pub struct Probe {
    pub asked: Asked,
    // whether a line is still asked for when it was acknowledged
    pub keeps: bool,
    // given when INT0 is acknowledged
    pub byte: u8,
    pub full: bool,
    // what every port reads as
    pub answer: u8,
    // the last line that was acknowledged
    pub acknowledged: Option<Line>,
    // the sum of the states, which stops at 4,294,967,295
    pub told: u32,
    pub last_write: Option<Sent>,
    pub last_read: Option<u16>,
}
