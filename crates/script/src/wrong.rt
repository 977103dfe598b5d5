// Why a script is refused: the first line that is wrong, and what is wrong with it.
ghost use Rattle.script.specs.Wrong.{bad_line, outside, refused_text, wrong_text};
ghost use Rattle.script.specs.declared.wrong.Refused.TheVariants as refused;
ghost use Rattle.script.specs.declared.wrong.Untaken.TheVariants as untaken;
ghost use Rattle.script.specs.declared.wrong.Wrong.TheVariants as wrong;
ghost use Rattle.std.specs.Prelude.{◌≡◌, Some};

use std::alloc::AllocError;
use std::fmt;

#[derive(Clone, Copy, Debug, PartialEq, Eq)]
pub enum Wrong {
    // the line by itself
    Line(command::wrong::Wrong),
    RomTwice,
    RamTwice,
    // a length behind what is put into the boards, or behind the second board's beginning
    LengthLate,
    // a panel behind another, or behind a line for the chain panel
    PanelLate,
    NotAChain,
    SecondTwice,
    // bytes where the board has none
    Outside,
    // a file that cannot be read
    Unreadable,
    BeforeMake,
    BehindMake,
    MakeTwice,
    NoMake,
}

// The first line that is wrong, by its number from 1 on.
#[derive(Clone, Copy, Debug, PartialEq, Eq)]
pub struct BadLine {
    pub line: usize,
    pub wrong: Wrong,
}

#[derive(Clone, Copy, Debug, PartialEq, Eq)]
pub enum Refused {
    BadLine(BadLine),
    NoMemory,
}

impl BadLine {
    pub(crate) fn outside(line: usize) -> BadLine
        ensures { result ≡ outside line }
    {
        BadLine {
            line,
            wrong: Wrong::Outside,
        }
    }
}

// Why a line is not taken, before its number is said.
#[derive(Clone, Copy, Debug, PartialEq, Eq)]
pub(crate) enum Untaken {
    Wrong(Wrong),
    NoMemory,
}

impl fmt::Display for Wrong {
    ghost output = { λ w. Some (wrong_text w) };

    fn fmt<W: fmt::Write>(&self, f: &mut fmt::Formatter<W>) -> fmt::Result {
        match self {
            Wrong::Line(wrong) => write!(f, "{wrong}"),
            Wrong::RomTwice => f.write_str("rom is given twice"),
            Wrong::RamTwice => f.write_str("ram is given twice"),
            Wrong::LengthLate => f.write_str(
                "rom and ram come before bytes, fill, image and second",
            ),
            Wrong::PanelLate => f.write_str("chain or script comes once, before key and latch"),
            Wrong::NotAChain => f.write_str("key and latch are for a chain panel"),
            Wrong::SecondTwice => f.write_str("second comes once"),
            Wrong::Outside => f.write_str("there are bytes outside the board"),
            Wrong::Unreadable => f.write_str("the file cannot be read"),
            Wrong::BeforeMake => f.write_str("this comes behind make"),
            Wrong::BehindMake => f.write_str("this comes before make"),
            Wrong::MakeTwice => f.write_str("make comes once"),
            Wrong::NoMake => f.write_str("make is missing"),
        }
    }
}

impl fmt::Display for BadLine {
    ghost output = { λ b. Some (bad_line b) };

    fn fmt<W: fmt::Write>(&self, f: &mut fmt::Formatter<W>) -> fmt::Result {
        let line = self.line;
        let wrong = self.wrong;
        write!(f, "line {line}: {wrong}")
    }
}

impl fmt::Display for Refused {
    ghost output = { λ r. Some (refused_text r) };

    fn fmt<W: fmt::Write>(&self, f: &mut fmt::Formatter<W>) -> fmt::Result {
        match self {
            Refused::BadLine(bad) => write!(f, "{bad}"),
            Refused::NoMemory => f.write_str("no memory for the script"),
        }
    }
}

impl From<Wrong> for Untaken {
    ghost from_gives = { λ w u. u ≡ untaken.Wrong w };

    fn from(wrong: Wrong) -> Untaken {
        Self::Wrong(wrong)
    }
}

impl From<AllocError> for Untaken {
    ghost from_gives = { λ _ u. u ≡ untaken.NoMemory };

    fn from(_: AllocError) -> Untaken {
        Self::NoMemory
    }
}

impl From<BadLine> for Refused {
    ghost from_gives = { λ b r. r ≡ refused.BadLine b };

    fn from(bad: BadLine) -> Refused {
        Self::BadLine(bad)
    }
}

impl From<AllocError> for Refused {
    ghost from_gives = { λ _ r. r ≡ refused.NoMemory };

    fn from(_: AllocError) -> Refused {
        Self::NoMemory
    }
}
