// Addition, subtraction, comparison and negation of bytes.
ghost use Rattle.arithmetic.specs.Add as of;
ghost use Rattle.std.specs.Prelude.{◌≡◌};

use crate::flags::Flags;
use crate::sum::{difference, sum};

// a + b, and one more with a carry. H is a carry out of the low digit.
fn plus(a: u8, b: u8, carry: bool, flags: Flags) -> (u8, Flags)
    ensures { result ≡ of.plus a b carry flags }
{
    let (value, shown) = sum::<256>(u32::from(a), u32::from(b), carry, flags);
    let h = a % 16 + b % 16 + u8::from(carry) >= 16;
    (value as u8, Flags { h, ..shown })
}

// a - b, and one less with a borrow. H is a borrow into the low digit; it stands apart from `plus` as the difference from the sum.
fn minus(a: u8, b: u8, borrow: bool, flags: Flags) -> (u8, Flags)
    ensures { result ≡ of.minus a b borrow flags }
{
    let (value, shown) = difference::<256>(u32::from(a), u32::from(b), borrow, flags);
    let h = a % 16 < b % 16 + u8::from(borrow);
    (value as u8, Flags { h, ..shown })
}

// The four with and without carry stay four functions: each is one line, and one with a flag for the carry would be no plainer.

// ADD A
pub(crate) fn add(a: u8, b: u8, flags: Flags) -> (u8, Flags)
    ensures { result ≡ of.add a b flags }
{
    plus(a, b, false, flags)
}

// ADC A
pub(crate) fn add_with_carry(a: u8, b: u8, flags: Flags) -> (u8, Flags)
    ensures { result ≡ of.add_with_carry a b flags }
{
    plus(a, b, flags.c, flags)
}

// SUB
pub(crate) fn subtract(a: u8, b: u8, flags: Flags) -> (u8, Flags)
    ensures { result ≡ of.subtract a b flags }
{
    minus(a, b, false, flags)
}

// SBC A
pub(crate) fn subtract_with_carry(a: u8, b: u8, flags: Flags) -> (u8, Flags)
    ensures { result ≡ of.subtract_with_carry a b flags }
{
    minus(a, b, flags.c, flags)
}

// CP: the flags of a subtraction; A stays.
pub(crate) fn compare(a: u8, b: u8, flags: Flags) -> (u8, Flags)
    ensures { result ≡ of.compare a b flags }
{
    let (_, flags) = subtract(a, b, flags);
    (a, flags)
}

// NEG
pub fn negate(a: u8, flags: Flags) -> (u8, Flags)
    ensures { result ≡ of.negate a flags }
{
    subtract(0, a, flags)
}
