// A panel that is never full, asks for no line, answers every read with one byte, and records the access.
ghost use Rattle.check_vectors.specs.Recording.{recording};
ghost use Rattle.check_vectors.specs.declared.recorder.Recorder.{Recorder as Recorded};

use crate::access::Access;
use denial::Denial;
use panel::Panel;
use panel::line::Line;

#[derive(Clone, Copy)]
pub struct Recorder {
    pub answer: u8,
    pub access: Access,
}

impl Panel for Recorder {
    ghost State = { Recorded };

    ghost make = { recording };

    ghost state = { λ r. r };

    fn full(&self) -> bool {
        false
    }

    fn asks(&self, _line: Line) -> bool {
        false
    }

    fn int0_byte(&self) -> u8 {
        0xFF
    }

    fn read(&mut self, port: u16) -> u8 {
        self.access = Access::Read(port).behind(self.access);
        self.answer
    }

    fn write(&mut self, port: u16, byte: u8) -> Result<(), Denial> {
        self.access = Access::Written(port, byte).behind(self.access);
        Ok(())
    }

    fn acknowledge(&mut self, _line: Line) {}

    fn tell(&mut self, _states: u32) {}
}
