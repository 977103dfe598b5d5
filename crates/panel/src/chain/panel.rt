// The chain panel as the card sees it.
ghost use Rattle.denial.specs.Denials.{answered};
ghost use Rattle.panel.specs.Chains.{State, chain_make};
ghost use Rattle.panel.specs.Links.{table_written};
ghost use Rattle.panel.specs.Panel.{accepted, wrote};
ghost use Rattle.panel.specs.Shown.{chain_state, table_of};
ghost use Rattle.std.specs.Prelude.{◌≡◌};

use crate::Panel;
use crate::chain::Chain;
use crate::line::Line;
use crate::track::Track;
use denial::Denial;

impl Panel for Chain {
    ghost State = { State };

    ghost make = { chain_make };

    ghost state = { chain_state };

    fn full(&self) -> bool {
        self.used as usize + 1 == self.table.len()
    }

    fn asks(&self, line: Line) -> bool {
        match line {
            Line::Nmi => self.latch,
            Line::Int1 => self.key != 0,
            Line::Int0 | Line::Int2 => false,
        }
    }

    fn int0_byte(&self) -> u8 {
        0xFF
    }

    fn read(&mut self, port: u16) -> u8
        ensures answer { result ≡ chain_make.answer (chain_state self.old) port }
        ensures after { chain_state self.new ≡ chain_make.read (chain_state self.old) port }
        ensures table { table_of self.new ≡ table_of self.old }
    {
        if port % 256 == 0x83 { self.key } else { 0xFF }
    }

    // A write that is recorded fills the fresh record, and its predecessor names it; the table keeps all else.
    fn write(&mut self, port: u16, byte: u8) -> Result<(), Denial>
        ensures answer { answered result ≡ accepted chain_make (chain_state self.old) }
        ensures after { chain_state self.new ≡ wrote chain_make (chain_state self.old) port byte }
        ensures table { table_of self.new ≡ table_written (chain_state self.old) (table_of self.old) port byte }
    {
        if self.full() {
            return Err(Denial::PanelFull);
        }
        if let Some(track) = Track::of_port(port) {
            let number = self.take_fresh(port, byte);
            self.join(track, number);
        }
        Ok(())
    }

    fn acknowledge(&mut self, line: Line)
        ensures after { chain_state self.new ≡ chain_make.acknowledged (chain_state self.old) line }
        ensures table { table_of self.new ≡ table_of self.old }
    {
        if let Line::Nmi = line {
            self.latch = false;
        }
    }

    // Being told states alters nothing.
    fn tell(&mut self, _states: u32)
        ensures after { chain_state self.new ≡ chain_make.told (chain_state self.old) _states }
        ensures table { table_of self.new ≡ table_of self.old }
    {}
}
