// The 16-bit operations: addition, and addition and subtraction with carry.
ghost use Rattle.arithmetic.specs.Wide as of;
ghost use Rattle.std.specs.Prelude.{◌≡◌};

use crate::flags::Flags;
use crate::sum::{difference, sum};

// ADD HL, ADD IX, ADD IY: only N and C change.
pub fn add(a: u16, b: u16, flags: Flags) -> (u16, Flags)
    ensures { result ≡ of.add a b flags }
{
    let flags = Flags {
        n: false,
        c: u32::from(a) + u32::from(b) >= 65536,
        ..flags
    };
    (a.wrapping_add(b), flags)
}

// ADC HL: H stays.
pub fn add_with_carry(a: u16, b: u16, flags: Flags) -> (u16, Flags)
    ensures { result ≡ of.add_with_carry a b flags }
{
    let (value, flags) = sum::<65_536>(u32::from(a), u32::from(b), flags.c, flags);
    (value as u16, flags)
}

// SBC HL: H stays.
pub fn subtract_with_carry(a: u16, b: u16, flags: Flags) -> (u16, Flags)
    ensures { result ≡ of.subtract_with_carry a b flags }
{
    let (value, flags) = difference::<65_536>(u32::from(a), u32::from(b), flags.c, flags);
    (value as u16, flags)
}
