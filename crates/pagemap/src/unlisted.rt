// Why there is no listing.
ghost use Rattle.pagemap.specs.Listing.{unlisted_line};
ghost use Rattle.pagemap.specs.declared.unlisted.Unlisted.TheVariants.{Argument, NoMemory};
ghost use Rattle.std.specs.Prelude.{◌≡◌, Some};

use crate::arguments::BadArgument;
use std::alloc::AllocError;
use std::fmt;

#[derive(Clone, Copy, Debug, PartialEq, Eq)]
pub enum Unlisted {
    // an image of more than 524,288 bytes
    TooLong,
    Argument(BadArgument),
    // want of memory for the text
    NoMemory,
}

impl fmt::Display for Unlisted {
    ghost output = { λ u. Some (unlisted_line u) };

    fn fmt<W: fmt::Write>(&self, f: &mut fmt::Formatter<W>) -> fmt::Result {
        match self {
            Unlisted::TooLong => f.write_str("too long"),
            Unlisted::Argument(bad) => write!(f, "{bad}"),
            Unlisted::NoMemory => f.write_str("no memory for the listing"),
        }
    }
}

impl From<BadArgument> for Unlisted {
    ghost from_gives = { λ bad u. u ≡ Argument bad };

    fn from(bad: BadArgument) -> Unlisted {
        Self::Argument(bad)
    }
}

impl From<AllocError> for Unlisted {
    ghost from_gives = { λ _ u. u ≡ NoMemory };

    fn from(_: AllocError) -> Unlisted {
        Self::NoMemory
    }
}
