// What a word says at its place in a command.
ghost use Rattle.command.specs.Counts.{seen_one};
ghost use Rattle.command.specs.Words.{address, byte, decimal, logical, text, window};
ghost use Rattle.std.specs.Prelude.{◌≡◌};

use crate::wrong::{Place, Wrong};
use registers::window::Window;
use text::{decimal, hex};

pub(crate) fn decimal(place: Place, word: &[u8]) -> Result<u32, Wrong>
    ensures { result ≡ decimal place word.now }
{
    decimal::number(word).ok_or(Wrong::NotDecimal(place))
}

pub(crate) fn byte(place: Place, word: &[u8]) -> Result<u8, Wrong>
    ensures { result ≡ byte place word.now }
{
    hex::byte(word).ok_or(Wrong::NotAByte(place))
}

// A physical address; one beyond memory is denied by the memory, by number.
pub(crate) fn address(word: &[u8]) -> Result<u32, Wrong>
    ensures { result ≡ address word.now }
{
    hex::long(word).ok_or(Wrong::NotAnAddress)
}

pub(crate) fn logical(word: &[u8]) -> Result<u16, Wrong>
    ensures { result ≡ logical word.now }
{
    hex::word(word).ok_or(Wrong::NotALogicalAddress)
}

// A file's name.
#[tactic(auto, using(crate::proofs::Texts::is_text, crate::proofs::Texts::no_text))]
pub(crate) fn text(word: &[u8]) -> Result<&str, Wrong>
    ensures { seen_one result ≡ text word.now }
{
    match str::from_utf8(word) {
        Ok(name) => Ok(name),
        Err(_) => Err(Wrong::NotText),
    }
}

pub(crate) fn window(cbar: &[u8], cbr: &[u8], bbr: &[u8]) -> Result<Window, Wrong>
    ensures { result ≡ window cbar.now cbr.now bbr.now }
{
    Ok(Window {
        cbar: byte(Place::Cbar, cbar)?,
        cbr: byte(Place::Cbr, cbr)?,
        bbr: byte(Place::Bbr, bbr)?,
    })
}
