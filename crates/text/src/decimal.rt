// Numbers in decimal, as they are read.
ghost use Rattle.std.specs.Prelude.{◌≡◌};
ghost use Rattle.text.specs.Numbers.{decimal_value};

use crate::digits;

// The number that a word spells, if 32 bits hold it.
pub fn number(word: &[u8]) -> Option<u32>
    ensures { result ≡ decimal_value word.now }
{
    digits::number(word, 10)
}
