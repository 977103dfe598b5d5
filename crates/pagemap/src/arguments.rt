// The program's arguments: three hexadecimal bytes that make a window.
ghost use Rattle.pagemap.specs.Arguments.{bad_argument_line, base_for, byte_for, place_name, window_asked, window_from};
ghost use Rattle.pagemap.specs.declared.arguments.Place.TheVariants.{Bbr, Cbar, Cbr};
ghost use Rattle.std.specs.Prelude.{◌≡◌, map, Some, string_bytes};

use registers::window::Window;
use std::fmt;
use text::hex;

// Which of the three bytes.
#[derive(Clone, Copy, Debug, PartialEq, Eq)]
pub enum Place {
    Cbar,
    Cbr,
    Bbr,
}

// Why the arguments make no window.
#[derive(Clone, Copy, Debug, PartialEq, Eq)]
pub enum BadArgument {
    NotThree,
    NotAByte(Place),
    AboveBase(Place),
}

impl fmt::Display for Place {
    ghost output = { λ p. Some (place_name p) };

    fn fmt<W: fmt::Write>(&self, f: &mut fmt::Formatter<W>) -> fmt::Result {
        match self {
            Place::Cbar => f.write_str("CBAR"),
            Place::Cbr => f.write_str("CBR"),
            Place::Bbr => f.write_str("BBR"),
        }
    }
}

impl fmt::Display for BadArgument {
    ghost output = { λ b. Some (bad_argument_line b) };

    fn fmt<W: fmt::Write>(&self, f: &mut fmt::Formatter<W>) -> fmt::Result {
        match self {
            BadArgument::NotThree => f.write_str(
                "give three hexadecimal bytes, CBAR CBR BBR, or none",
            ),
            BadArgument::NotAByte(place) => write!(
                f,
                "{place} is not a byte in one or two hexadecimal digits"
            ),
            BadArgument::AboveBase(place) => write!(f, "{place} is above 7F"),
        }
    }
}

fn byte(place: Place, text: &str) -> Result<u8, BadArgument>
    ensures { result ≡ byte_for place text.now }
{
    hex::byte(text.as_bytes()).ok_or(BadArgument::NotAByte(place))
}

fn base(place: Place, text: &str) -> Result<u8, BadArgument>
    ensures { result ≡ base_for place text.now }
{
    let base = byte(place, text)?;
    if base > 0x7F {
        return Err(BadArgument::AboveBase(place));
    }
    Ok(base)
}

// The window of three bytes; the first that is wrong is named.
fn window_of(cbar: &str, cbr: &str, bbr: &str) -> Result<Window, BadArgument>
    ensures { result ≡ window_from (byte_for Cbar cbar.now) (base_for Cbr cbr.now) (base_for Bbr bbr.now) }
{
    let cbar = byte(Place::Cbar, cbar)?;
    let cbr = base(Place::Cbr, cbr)?;
    let bbr = base(Place::Bbr, bbr)?;
    Ok(Window { cbar, cbr, bbr })
}

// The window that the arguments ask for: as reset leaves it where there are none.
pub fn window(arguments: &[String]) -> Result<Window, BadArgument>
    ensures { result ≡ window_asked (map string_bytes arguments.now) }
{
    match arguments {
        [] => Ok(Window::RESET),
        [cbar, cbr, bbr] => window_of(cbar.as_str(), cbr.as_str(), bbr.as_str()),
        _ => Err(BadArgument::NotThree),
    }
}
