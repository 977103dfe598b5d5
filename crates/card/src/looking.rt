// Looking through another window. It asks nothing of the panel.
ghost use Rattle.card.specs.Looks.{has_bases};
ghost use Rattle.denial.specs.Denials.{answered, numbered};
ghost use Rattle.card.specs.contracts.card.Card.{the_row as card_row};
ghost use Rattle.machine.specs.contracts.state.Machine.{the_row as machine_row};
ghost use Rattle.processor.specs.Run.{is_look, looked};
ghost use Rattle.registers.specs.contracts.window.Window.{the_row as window_row};
ghost use Rattle.std.specs.Prelude.{◌≡◌, length, if◌then◌else◌, Ok, Err};
ghost use Rattle.std.specs.Borrow.{follows, sem};

use crate::card::Card;
use crate::look::Look;
use crate::look_window::LookWindow;
use denial::Denial;
use machine::state::Machine;
use memory::Memory;
use registers::window::Window;

fn open_machine<M: Memory, P>(machine: &mut Machine<M, P>, window: LookWindow) -> Look<'_, M>
    ensures shown { result.window.now ≡ window.window }
    ensures saved { result.saved ≡ machine.old.window }
    ensures memory { result.memory.now ≡ machine.old.memory }
    ensures* back { sem 𝓛 (follows (machine_row M.row P.row) window_row machine.entry.ghost_name result.window.ghost_name (λ v. record { cpu = machine.old.cpu; window = v; memory = machine.old.memory; panel = machine.old.panel; spent = machine.old.spent })) }
{
    let saved = machine.window;
    machine.window = window.window();
    Look {
        window: &mut machine.window,
        saved,
        memory: &machine.memory,
    }
}

impl<M: Memory, P> Card<M, P> {
    // A look that stands until it ends; the card is then as it was.
    pub fn open(&mut self, window: LookWindow) -> Look<'_, M>
        ensures shown { result.window.now ≡ window.window }
        ensures saved { result.saved ≡ self.old.machine.window }
        ensures memory { result.memory.now ≡ self.old.machine.memory }
        ensures* back { sem 𝓛 (follows (card_row M.row P.row) window_row self.entry.ghost_name result.window.ghost_name (λ v. record { machine = record { cpu = self.old.machine.cpu; window = v; memory = self.old.machine.memory; panel = self.old.machine.panel; spent = self.old.machine.spent } })) }
    {
        open_machine(&mut self.machine, window)
    }

    // Opens, fills and ends.
    pub fn look(&mut self, window: Window, at: u16, buffer: &mut [u8]) -> Result<(), Denial>
        ensures answer { answered result ≡ (if is_look window (length buffer.old) then Ok tt else Err (numbered 7)) }
        ensures buffer { buffer.new ≡ (if is_look window (length buffer.old) then looked (M.memory self.old.machine.memory).byte window at (length buffer.old) else buffer.old) }
        ensures card { self.new ≡ self.old }
    {
        let window = LookWindow::try_from(window)?;
        let look = self.open(window);
        look.fill(at, buffer)
    }
}
