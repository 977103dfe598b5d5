// Why there is no listing.
ghost use Rattle.plot.specs.Listing.{unplotted_line};
ghost use Rattle.plot.specs.declared.unplotted.Unplotted.TheVariants.{NoMemory};
ghost use Rattle.std.specs.Prelude.{◌≡◌, Some};

use std::alloc::AllocError;
use std::fmt;

#[derive(Clone, Copy, Debug, PartialEq, Eq)]
pub enum Unplotted {
    // an image of more bytes than the bank has
    TooLong,
    // want of memory for the text
    NoMemory,
}

impl fmt::Display for Unplotted {
    ghost output = { λ u. Some (unplotted_line u) };

    fn fmt<W: fmt::Write>(&self, f: &mut fmt::Formatter<W>) -> fmt::Result {
        f.write_str(match self {
            Unplotted::TooLong => "too long",
            Unplotted::NoMemory => "no memory for the listing",
        })
    }
}

impl From<AllocError> for Unplotted {
    ghost from_gives = { λ _ u. u ≡ NoMemory };

    fn from(_: AllocError) -> Unplotted {
        Self::NoMemory
    }
}
