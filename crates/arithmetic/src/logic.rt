// The bitwise operations: and, or, exclusive or, and complement.
ghost use Rattle.arithmetic.specs.Flags.{showing};
ghost use Rattle.arithmetic.specs.Logic as of;
ghost use Rattle.std.specs.Prelude.{◌≡◌, false};

use crate::flags::Flags;

// A result, and the flags that show it: H as given, and C 0.
fn shown(value: u8, half: bool, flags: Flags) -> (u8, Flags)
    ensures { result ≡ (value, showing flags value half false) }
{
    let flags = Flags {
        h: half,
        c: false,
        ..flags.showing(value)
    };
    (value, flags)
}

// AND
pub(crate) fn and(a: u8, b: u8, flags: Flags) -> (u8, Flags)
    ensures { result ≡ of.and a b flags }
{
    shown(a & b, true, flags)
}

// OR
pub(crate) fn or(a: u8, b: u8, flags: Flags) -> (u8, Flags)
    ensures { result ≡ of.or a b flags }
{
    shown(a | b, false, flags)
}

// XOR
pub(crate) fn xor(a: u8, b: u8, flags: Flags) -> (u8, Flags)
    ensures { result ≡ of.xor a b flags }
{
    shown(a ^ b, false, flags)
}

// CPL
pub fn complement(a: u8, flags: Flags) -> (u8, Flags)
    ensures { result ≡ of.complement a flags }
{
    let flags = Flags {
        h: true,
        n: true,
        ..flags
    };
    (!a, flags)
}
