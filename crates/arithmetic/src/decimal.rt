// Decimal adjust: it turns the sum or the difference of two packed-decimal bytes into a packed-decimal byte.
ghost use Rattle.arithmetic.specs.Decimal as of;
ghost use Rattle.std.specs.Prelude.{◌≡◌};

use crate::flags::Flags;

// Whether the high digit is to be adjusted.
fn high(a: u8, flags: Flags) -> bool
    ensures { result ≡ of.high a flags }
{
    flags.c | (a > 0x99)
}

// By how much.
fn correction(a: u8, flags: Flags) -> u8
    ensures { result ≡ of.correction a flags }
{
    let low = if flags.h | (a % 16 > 9) { 0x06 } else { 0 };
    let high = if high(a, flags) { 0x60 } else { 0 };
    low + high
}

fn adjusted(a: u8, flags: Flags) -> u8
    ensures { result ≡ of.adjusted a flags }
{
    let by = correction(a, flags);
    if flags.n {
        a.wrapping_sub(by)
    } else {
        a.wrapping_add(by)
    }
}

// DAA
pub fn adjust(a: u8, flags: Flags) -> (u8, Flags)
    ensures { result ≡ of.adjust a flags }
{
    let value = adjusted(a, flags);
    let flags = Flags {
        h: (a / 16 % 2 == 1) != (value / 16 % 2 == 1),
        n: flags.n,
        c: high(a, flags),
        ..flags.showing(value)
    };
    (value, flags)
}
