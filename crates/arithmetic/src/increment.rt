// Increment and decrement of a byte: the addition or subtraction of 1, but that C stays.
ghost use Rattle.arithmetic.specs.Increment as of;
ghost use Rattle.std.specs.Prelude.{◌≡◌};

use crate::add::{add, subtract};
use crate::flags::Flags;

// They stay two functions of two lines each: one that took the addition or the subtraction would be longer than both.

// INC
pub fn increment(value: u8, flags: Flags) -> (u8, Flags)
    ensures { result ≡ of.increment value flags }
{
    let (more, new) = add(value, 1, flags);
    (more, Flags { c: flags.c, ..new })
}

// DEC
pub fn decrement(value: u8, flags: Flags) -> (u8, Flags)
    ensures { result ≡ of.decrement value flags }
{
    let (less, new) = subtract(value, 1, flags);
    (less, Flags { c: flags.c, ..new })
}
