// The panel of the tests as the card sees it.
ghost use Rattle.check_execution.specs.Probes.{probe_make};
ghost use Rattle.check_execution.specs.declared.probe.Probe.{Probe as State};

use crate::probe::Probe;
use denial::Denial;
use panel::Panel;
use panel::line::Line;
use panel::sent::Sent;

impl Panel for Probe {
    ghost State = { State };

    ghost make = { probe_make };

    ghost state = { λ p. p };

    fn full(&self) -> bool {
        self.full
    }

    fn asks(&self, line: Line) -> bool {
        self.asked.by(line)
    }

    fn int0_byte(&self) -> u8 {
        self.byte
    }

    fn read(&mut self, port: u16) -> u8 {
        self.last_read = Some(port);
        self.answer
    }

    fn write(&mut self, port: u16, byte: u8) -> Result<(), Denial> {
        if self.full {
            return Err(Denial::PanelFull);
        }
        self.last_write = Some(Sent { port, byte });
        Ok(())
    }

    fn acknowledge(&mut self, line: Line) {
        self.acknowledged = Some(line);
        if !self.keeps {
            self.asked.set(line, false);
        }
    }

    fn tell(&mut self, states: u32) {
        self.told = self.told.saturating_add(states);
    }
}
