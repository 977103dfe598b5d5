// A number by its digits.
ghost use Rattle.std.specs.Prelude.{◌≡◌, ◌+◌, ◌*◌, ◌^◌, ◌<◌, Some};
ghost use Rattle.text.specs.Numbers.{below, digit_value, number_value};

// By hand: std's to_digit wants a char, so that the byte would be turned into one.
fn digit(c: u8, radix: u32) -> Option<u32>
    ensures { result ≡ below radix (digit_value c) }
{
    let digit = match c {
        b'0'..=b'9' => c - b'0',
        b'A'..=b'F' => c - b'A' + 10,
        b'a'..=b'f' => c - b'a' + 10,
        _ => return None,
    };
    let digit = u32::from(digit);
    if digit < radix { Some(digit) } else { None }
}

// The number with one more digit, if 32 bits hold it.
fn more(n: u32, radix: u32, digit: u32) -> Option<u32>
    ensures { result ≡ below (2 ^ 32) (Some (n * radix + digit)) }
{
    n.checked_mul(radix)?.checked_add(digit)
}

// The number that a word spells: one digit or more, and no other character.
pub(crate) fn number(word: &[u8], radix: u32) -> Option<u32>
    requires { 0 < radix }
    ensures { result ≡ number_value radix word.now }
{
    if word.is_empty() {
        return None;
    }
    let mut n: u32 = 0;
    for c in word {
        n = more(n, radix, digit(*c, radix)?)?;
    }
    Some(n)
}
