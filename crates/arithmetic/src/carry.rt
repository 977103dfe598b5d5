// Setting and complementing C. The accumulator stays.
ghost use Rattle.arithmetic.specs.Carry as of;
ghost use Rattle.std.specs.Prelude.{◌≡◌};

use crate::flags::Flags;

// SCF
pub fn set(a: u8, flags: Flags) -> (u8, Flags)
    ensures { result ≡ of.set a flags }
{
    (a, flags.carrying(true))
}

// CCF
pub fn complement(a: u8, flags: Flags) -> (u8, Flags)
    ensures { result ≡ of.complement a flags }
{
    (a, flags.carrying(!flags.c))
}
