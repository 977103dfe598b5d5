// Why a line is no command.
ghost use Rattle.command.specs.Wrongs.{unread_line};
ghost use Rattle.command.specs.declared.unread.Unread.TheVariants as unread;
ghost use Rattle.std.specs.Prelude.{◌≡◌, Some};

use crate::wrong::Wrong;
use std::alloc::AllocError;
use std::fmt;

#[derive(Clone, Copy, Debug, PartialEq, Eq)]
pub enum Unread {
    Wrong(Wrong),
    // want of memory for its words
    NoMemory,
}

impl fmt::Display for Unread {
    ghost output = { λ u. Some (unread_line u) };

    fn fmt<W: fmt::Write>(&self, f: &mut fmt::Formatter<W>) -> fmt::Result {
        match self {
            Unread::Wrong(wrong) => write!(f, "{wrong}"),
            Unread::NoMemory => f.write_str("no memory for the line"),
        }
    }
}

impl From<Wrong> for Unread {
    ghost from_gives = { λ wrong u. u ≡ unread.Wrong wrong };

    fn from(wrong: Wrong) -> Unread {
        Self::Wrong(wrong)
    }
}

impl From<AllocError> for Unread {
    ghost from_gives = { λ _ u. u ≡ unread.NoMemory };

    fn from(_: AllocError) -> Unread {
        Self::NoMemory
    }
}
