// Test, set and reset of one bit. A bit's number is the opcode's three bits, so it counts modulo 8.
ghost use Rattle.arithmetic.specs.Bits as of;
ghost use Rattle.std.specs.Prelude.{◌≡◌};

use crate::flags::Flags;

// BIT
pub fn test(number: u8, value: u8, flags: Flags) -> (u8, Flags)
    ensures { result ≡ of.test number value flags }
{
    let flags = Flags {
        z: (value >> (number % 8)) % 2 == 0,
        h: true,
        n: false,
        ..flags
    };
    (value, flags)
}

// Set and reset stay two functions of one line: they differ in the operator, not in a constant.

// SET
pub fn set(number: u8, value: u8, flags: Flags) -> (u8, Flags)
    ensures { result ≡ of.set number value flags }
{
    (value | (1 << (number % 8)), flags)
}

// RES
pub fn reset(number: u8, value: u8, flags: Flags) -> (u8, Flags)
    ensures { result ≡ of.reset number value flags }
{
    (value & !(1 << (number % 8)), flags)
}
