// What a panel is, and two makes of it: the chain panel, which records a plot, and the script panel, which plays a list.
#![tactic(auto)]

ghost use Rattle.denial.specs.Denials.{answered};
ghost use Rattle.panel.specs.Panel.{Make, accepted, wrote};
ghost use Rattle.std.specs.Prelude.{◌≡◌};

use crate::line::Line;
use denial::Denial;

pub mod chain;
pub mod laws;
pub mod line;
pub mod record;
pub mod script;
pub mod sent;
pub mod track;

// A panel means a state. Every make says by `make` what its states answer and become, and by `state` which one its value
// means. The state holds everything that any call of the panel can ever show, the host's calls too.
pub trait Panel {
    ghost State: { Type 0 };

    ghost make: { Make State };

    ghost state: { Self → State };

    // Whether it is full. While it is, every write is denied.
    fn full(&self) -> bool
        ensures { result ≡ make.full (state self.now) };

    // Whether it asks for an interrupt by a line.
    fn asks(&self, line: Line) -> bool
        ensures { result ≡ make.asks (state self.now) line };

    // The byte that it gives when INT0 is acknowledged.
    fn int0_byte(&self) -> u8
        ensures { result ≡ make.int0_byte (state self.now) };

    // What a read of a port answers. It may alter the panel.
    fn read(&mut self, port: u16) -> u8
        ensures answer { result ≡ make.answer (state self.old) port }
        ensures after { state self.new ≡ make.read (state self.old) port };

    // Takes a byte written to a port, or denies it as 8 and is as it was.
    fn write(&mut self, port: u16, byte: u8) -> Result<(), Denial>
        ensures answer { answered result ≡ accepted make (state self.old) }
        ensures after { state self.new ≡ wrote make (state self.old) port byte };

    // The processor has accepted a line.
    fn acknowledge(&mut self, line: Line)
        ensures { state self.new ≡ make.acknowledged (state self.old) line };

    // So many states have passed.
    fn tell(&mut self, states: u32)
        ensures { state self.new ≡ make.told (state self.old) states };
}
