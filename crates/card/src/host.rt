// What the host reaches besides the calls that a log knows: registers, memory and panel.
ghost use Rattle.card.specs.contracts.card.Card.{the_row as card_row};
ghost use Rattle.denial.specs.Denials.{answered};
ghost use Rattle.machine.specs.contracts.state.Machine.{the_row as machine_row};
ghost use Rattle.memory.specs.Memory.{accepted, fetched, store};
ghost use Rattle.std.specs.Borrow.{follows, sem};
ghost use Rattle.std.specs.Prelude.{◌≡◌};

use crate::card::Card;
use denial::Denial;
use machine::state::Machine;
use memory::Memory;
use registers::registers::Registers;
use registers::window::Window;

impl<M: Memory, P> Card<M, P> {
    // All registers: those of the processor, and the three bytes of the window.
    pub fn registers(&self) -> (Registers, Window)
        ensures cpu { result.0 ≡ self.now.machine.cpu }
        ensures window { result.1 ≡ self.now.machine.window }
    {
        (self.machine.cpu, self.machine.window)
    }

    // The window that stands.
    pub fn window(&self) -> Window
        ensures { result ≡ self.now.machine.window }
    {
        self.machine.window
    }

    // The byte at a physical address, or 5.
    pub fn read(&self, at: u32) -> Result<u8, Denial>
        ensures { answered result ≡ fetched (M.memory self.now.machine.memory) at }
    {
        self.machine.memory.read(at)
    }

    // Puts a byte at a physical address if it takes writes, or 5.
    pub fn write(&mut self, at: u32, byte: u8) -> Result<(), Denial>
        ensures answer { answered result ≡ accepted at }
        ensures memory { M.memory self.new.machine.memory ≡ store (M.memory self.old.machine.memory) at byte }
        ensures cpu { self.new.machine.cpu ≡ self.old.machine.cpu }
        ensures window { self.new.machine.window ≡ self.old.machine.window }
        ensures panel { self.new.machine.panel ≡ self.old.machine.panel }
    {
        self.machine.memory.write(at, byte)
    }

    pub fn panel(&self) -> &P
        ensures { result.now ≡ self.now.machine.panel }
    {
        &self.machine.panel
    }

    // The panel, to be worked by the host; nothing else of the card changes.
    pub fn panel_mut(&mut self) -> &mut P
        ensures lent { result.now ≡ self.old.machine.panel }
        ensures* back { sem 𝓛 (follows (card_row M.row P.row) P.row self.entry.ghost_name result.ghost_name (λ v. record { machine = record { cpu = self.old.machine.cpu; window = self.old.machine.window; memory = self.old.machine.memory; panel = v; spent = self.old.machine.spent } })) }
    {
        panel_of(&mut self.machine)
    }

    // The card taken apart.
    pub fn into_parts(self) -> (M, P)
        ensures memory { result.0 ≡ self.machine.memory }
        ensures panel { result.1 ≡ self.machine.panel }
    {
        (self.machine.memory, self.machine.panel)
    }
}

fn panel_of<M, P>(machine: &mut Machine<M, P>) -> &mut P
    ensures lent { result.now ≡ machine.old.panel }
    ensures* back { sem 𝓛 (follows (machine_row M.row P.row) P.row machine.entry.ghost_name result.ghost_name (λ v. record { cpu = machine.old.cpu; window = machine.old.window; memory = machine.old.memory; panel = v; spent = machine.old.spent })) }
{
    &mut machine.panel
}
