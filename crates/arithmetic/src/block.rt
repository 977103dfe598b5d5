// The flags of the block instructions: compare, transfer, and input and output.
ghost use Rattle.arithmetic.specs.Block as of;
ghost use Rattle.std.specs.Prelude.{◌≡◌};

use crate::add::subtract;
use crate::flags::{Flags, even_parity};

// CPI, CPD and their repeating forms: a comparison, but that P/V tells whether the lowered BC has bytes left, and C stays.
pub fn compare(a: u8, byte: u8, left: u16, flags: Flags) -> (u8, Flags)
    ensures { result ≡ of.compare a byte left flags }
{
    let (_, new) = subtract(a, byte, flags);
    let flags = Flags {
        pv: left != 0,
        c: flags.c,
        ..new
    };
    (a, flags)
}

// LDI, LDD and their repeating forms: P/V tells whether the lowered BC has bytes left.
pub fn transfer(byte: u8, left: u16, flags: Flags) -> (u8, Flags)
    ensures { result ≡ of.transfer byte left flags }
{
    let flags = Flags {
        h: false,
        pv: left != 0,
        n: false,
        ..flags
    };
    (byte, flags)
}

// INI, IND, OUTI, OUTD and their repeating forms. It answers the lowered B.
pub fn port(b: u8, byte: u8, flags: Flags) -> (u8, Flags)
    ensures { result ≡ of.port b byte flags }
{
    let left = b.wrapping_sub(1);
    let flags = Flags {
        z: left == 0,
        n: byte >= 128,
        ..flags
    };
    (left, flags)
}

// OTIM, OTDM and their repeating forms. It answers the lowered B.
pub fn port_zero(b: u8, byte: u8, flags: Flags) -> (u8, Flags)
    ensures { result ≡ of.port_zero b byte flags }
{
    let (left, new) = subtract(b, 1, flags);
    let flags = Flags {
        pv: even_parity(left),
        n: byte >= 128,
        ..new
    };
    (left, flags)
}
