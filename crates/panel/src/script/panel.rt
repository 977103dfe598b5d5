// The script panel as the card sees it.
ghost use Rattle.panel.specs.Script.{State, script_make, script_state};

use crate::Panel;
use crate::line::Line;
use crate::script::Script;
use crate::sent::Sent;
use denial::Denial;

impl Panel for Script {
    ghost State = { State };

    ghost make = { script_make };

    ghost state = { script_state };

    fn full(&self) -> bool {
        false
    }

    fn asks(&self, line: Line) -> bool {
        match line {
            Line::Int0 => self.told >= self.threshold && !self.acknowledged,
            Line::Nmi | Line::Int1 | Line::Int2 => false,
        }
    }

    fn int0_byte(&self) -> u8 {
        self.int0_byte
    }

    fn read(&mut self, _port: u16) -> u8 {
        match self.bytes.get(self.place) {
            Some(byte) => {
                self.place += 1;
                *byte
            }
            None => 0xFF,
        }
    }

    fn write(&mut self, port: u16, byte: u8) -> Result<(), Denial> {
        self.last_write = Some(Sent { port, byte });
        Ok(())
    }

    fn acknowledge(&mut self, line: Line) {
        if let Line::Int0 = line {
            self.acknowledged = true;
        }
    }

    fn tell(&mut self, states: u32) {
        self.told = self.told.saturating_add(states);
    }
}
