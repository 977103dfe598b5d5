// The flags of an input, of a test, and of a load from I or R.
ghost use Rattle.arithmetic.specs.Port as of;
ghost use Rattle.std.specs.Prelude.{◌≡◌};

use crate::flags::Flags;
use crate::logic::and;

// IN r,(C) and IN0
pub fn input(byte: u8, flags: Flags) -> (u8, Flags)
    ensures { result ≡ of.input byte flags }
{
    (byte, flags.showing(byte))
}

// TST and TSTIO: the flags of an and; the first operand stays.
pub fn test(a: u8, b: u8, flags: Flags) -> (u8, Flags)
    ensures { result ≡ of.test a b flags }
{
    let (_, flags) = and(a, b, flags);
    (a, flags)
}

// LD A,I and LD A,R: P/V shows the interrupt flip-flop IEF2.
pub fn load(byte: u8, ief2: bool, flags: Flags) -> (u8, Flags)
    ensures { result ≡ of.load byte ief2 flags }
{
    let flags = Flags {
        pv: ief2,
        ..flags.showing(byte)
    };
    (byte, flags)
}
