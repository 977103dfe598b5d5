// A line of a script.
ghost use Rattle.command.specs.Commands.{command_of, said_in};
ghost use Rattle.command.specs.Reads.{Reads};
ghost use Rattle.command.specs.Said.{said_of};
ghost use Rattle.std.specs.Option.{option_map};
ghost use Rattle.std.specs.Prelude.{map};

use crate::command::Command;
use crate::form::Form;
use crate::sayings::said_by;
use crate::unread::Unread;
use crate::wrong::Wrong;
use std::alloc::Global;
use text::words::words;

// What words say: the first names the command.
fn said_in(heap: Global, words: &[&[u8]]) -> Result<Option<Command>, Unread>
    ensures { Reads (option_map said_of) result (said_in (map (λ w. w.now) words.now)) }
{
    match words {
        [] => Ok(None),
        [name, words @ ..] => {
            let form = Form::of(name).ok_or(Wrong::NoCommand)?;
            Ok(Some(said_by(heap, form, words)?))
        }
    }
}

// The command that a line says, what is wrong with it, or nothing where the line has no words.
pub fn command(heap: Global, line: &[u8]) -> Result<Option<Command>, Unread>
    ensures { Reads (option_map said_of) result (command_of line.now) }
{
    let words = words(heap, line)?;
    said_in(heap, words.as_slice())
}
