// Numbers in hexadecimal, as they are read. Printed they are std's `{:02X}`, `{:04X}` and the like; proofs/Written.antt has
// what those write.
ghost use Rattle.std.specs.Prelude.{◌≡◌};
ghost use Rattle.text.specs.Numbers.{byte_value, hexadecimal_value, long_value, word_value};

use crate::digits;

fn number(word: &[u8], most: usize) -> Option<u32>
    ensures { result ≡ hexadecimal_value most word.now }
{
    if word.len() > most {
        return None;
    }
    digits::number(word, 16)
}

// The byte that one or two digits spell.
pub fn byte(word: &[u8]) -> Option<u8>
    ensures { result ≡ byte_value word.now }
{
    let n = number(word, 2)?;
    Some(n as u8)
}

// The word of 16 bits that one to four digits spell.
pub fn word(word: &[u8]) -> Option<u16>
    ensures { result ≡ word_value word.now }
{
    let n = number(word, 4)?;
    Some(n as u16)
}

// The word of 32 bits that one to eight digits spell.
pub fn long(word: &[u8]) -> Option<u32>
    ensures { result ≡ long_value word.now }
{
    number(word, 8)
}
