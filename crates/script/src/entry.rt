// An entry of a script's log.
ghost use Rattle.command.specs.Said.{said_of};
ghost use Rattle.script.specs.Entries.{entry_of};
ghost use Rattle.std.specs.Prelude.{◌≡◌};

use crate::wrong::Wrong;
use answers::call::Call;
use command::command::Command;

#[derive(Clone, Copy)]
pub enum Entry {
    // a call, and how many times it is made
    Calls(Call, u32),
    // the card is shown
    Show,
}

// The entry of a command behind `make`.
pub(crate) fn entry_for(command: &Command) -> Result<Entry, Wrong>
    ensures { result ≡ entry_of (said_of command.now) }
{
    match command {
        Command::Step(times) => Ok(Entry::Calls(Call::Step, *times)),
        Command::Run { budget, times } => Ok(Entry::Calls(Call::Run(*budget), *times)),
        Command::Reset => Ok(Entry::Calls(Call::Reset, 1)),
        Command::Look { window, at, length } => Ok(Entry::Calls(
            Call::Look(*window, *at, *length as usize),
            1,
        )),
        Command::Show => Ok(Entry::Show),
        Command::Make => Err(Wrong::MakeTwice),
        _ => Err(Wrong::BehindMake),
    }
}
