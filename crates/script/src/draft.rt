// A script as far as its lines were read.
ghost use Rattle.command.specs.Commands.{command_of};
ghost use Rattle.command.specs.Said.{said_of};
ghost use Rattle.script.specs.Shown.{Takes, draft_of, setup_of};
ghost use Rattle.script.specs.Script.{line_taken, nothing_said, taken};
ghost use Rattle.std.specs.Prelude.{◌≡◌};

use crate::entry::{Entry, entry_for};
use crate::setup::Setup;
use crate::wrong::{Untaken, Wrong};
use command::command::Command;
use command::line::command;
use command::unread::Unread;
use std::alloc::{AllocError, Global};

#[derive(Drop)]
pub(crate) struct Draft {
    pub setup: Setup,
    // behind `make`
    pub log: Option<Vec<Entry>>,
}

impl Draft {
    pub fn new(heap: Global) -> Draft
        ensures { draft_of result ≡ nothing_said }
    {
        Draft {
            setup: Setup::new(heap),
            log: None,
        }
    }

    pub fn take(&mut self, heap: Global, line: usize, command: Command) -> Result<(), Untaken>
        ensures { Takes result (taken line (draft_of self.old) (said_of command)) (draft_of self.new) }
    {
        match (&mut self.log, command) {
            (Some(log), command) => {
                log.push(entry_for(&command)?).map_err(AllocError::from)?;
                Ok(())
            },
            (None, Command::Make) => {
                self.log = Some(Vec::new(heap));
                Ok(())
            }
            (None, command) => self.setup.take(heap, line, command),
        }
    }

    // A line may say nothing.
    pub fn take_line(&mut self, heap: Global, number: usize, line: &[u8]) -> Result<(), Untaken>
        ensures { Takes result (line_taken number (draft_of self.old) (command_of line.now)) (draft_of self.new) }
    {
        match command(heap, line) {
            Ok(Some(command)) => self.take(heap, number, command),
            Ok(None) => Ok(()),
            Err(Unread::Wrong(wrong)) => Err(Untaken::Wrong(Wrong::Line(wrong))),
            Err(Unread::NoMemory) => Err(Untaken::NoMemory),
        }
    }
}
