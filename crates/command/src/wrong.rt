// What is wrong with a line.
ghost use Rattle.command.specs.Wrongs.{place_name, wrong_line};
ghost use Rattle.std.specs.Prelude.{◌≡◌, Some};

use crate::form::Form;
use std::fmt;

// Which word of a command, as the forms name it.
#[derive(Clone, Copy, Debug, PartialEq, Eq)]
pub enum Place {
    Length,
    Hh,
    Page,
    Records,
    Byte,
    States,
    Times,
    Budget,
    Cbar,
    Cbr,
    Bbr,
}

#[derive(Clone, Copy, Debug, PartialEq, Eq)]
pub enum Wrong {
    NoCommand,
    // too few or too many words
    Count(Form),
    NotDecimal(Place),
    NotAByte(Place),
    NotAnAddress,
    NotALogicalAddress,
    NotAPatch,
    NotText,
}

impl fmt::Display for Place {
    ghost output = { λ p. Some (place_name p) };

    fn fmt<W: fmt::Write>(&self, f: &mut fmt::Formatter<W>) -> fmt::Result {
        f.write_str(match self {
            Place::Length => "LENGTH",
            Place::Hh => "HH",
            Place::Page => "PAGE",
            Place::Records => "RECORDS",
            Place::Byte => "BYTE",
            Place::States => "STATES",
            Place::Times => "TIMES",
            Place::Budget => "BUDGET",
            Place::Cbar => "CBAR",
            Place::Cbr => "CBR",
            Place::Bbr => "BBR",
        })
    }
}

impl fmt::Display for Wrong {
    ghost output = { λ w. Some (wrong_line w) };

    fn fmt<W: fmt::Write>(&self, f: &mut fmt::Formatter<W>) -> fmt::Result {
        match self {
            Wrong::NoCommand => f.write_str("unknown command"),
            Wrong::Count(form) => write!(f, "want: {form}"),
            Wrong::NotDecimal(place) => write!(
                f,
                "{place} is not a decimal number up to 4294967295"
            ),
            Wrong::NotAByte(place) => write!(f, "{place} is not one or two hexadecimal digits"),
            Wrong::NotAnAddress => f.write_str("ADDRESS is not one to eight hexadecimal digits"),
            Wrong::NotALogicalAddress => f.write_str(
                "ADDRESS is not one to four hexadecimal digits",
            ),
            Wrong::NotAPatch => f.write_str("a patch is written ADDRESS=HH"),
            Wrong::NotText => f.write_str("FILE is not UTF-8"),
        }
    }
}
