// MLT: the product of two bytes as a word. As every operation here it answers F, which it leaves.
ghost use Rattle.arithmetic.specs.Multiply as of;
ghost use Rattle.std.specs.Prelude.{◌≡◌};

use crate::flags::Flags;

pub fn multiply(a: u8, b: u8, flags: Flags) -> (u16, Flags)
    ensures { result ≡ of.multiply a b flags }
{
    (u16::from(a) * u16::from(b), flags)
}
