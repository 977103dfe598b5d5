// Where two logs differ.
ghost use Rattle.plot.specs.Lines.{line};
ghost use Rattle.std.specs.Prelude.{◌≡◌, ◌++◌, string_bytes, OnOk, Some};
ghost use Rattle.transcript.specs.Compared.{compared_text};

use std::alloc::AllocError;
use std::fmt;

// The first line whose answers differ, counted from 0.
#[derive(Clone, Copy)]
struct Compared(Option<usize>);

impl fmt::Display for Compared {
    ghost output = { λ c. Some (compared_text c.0) };

    fn fmt<W: fmt::Write>(&self, f: &mut fmt::Formatter<W>) -> fmt::Result {
        match self.0 {
            Some(index) => {
                // wider, since one more than the greatest index has no place in a usize
                let number = index as u128 + 1;
                write!(f, "differs at line {number}")
            }
            None => f.write_str("alike"),
        }
    }
}

pub fn compared_line(text: &mut String, differs: Option<usize>) -> Result<(), AllocError>
    ensures { OnOk result (string_bytes text.new ≡ string_bytes text.old ++ line (compared_text differs)) }
{
    let compared = Compared(differs);
    writeln!(text, "{compared}")
}
