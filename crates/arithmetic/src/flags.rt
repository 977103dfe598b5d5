// The flag register F, taken apart and packed as a byte, and the parity that P/V shows.
ghost use Rattle.arithmetic.specs.Flags as of;
ghost use Rattle.std.specs.Prelude.{false, ◌≡◌};

// F's flags. No operation changes bits 5 and 3: they are carried along, and only a load or an exchange of AF sets them.
#[derive(Clone, Copy, Debug, PartialEq, Eq, Default)]
pub struct Flags {
    // sign
    pub s: bool,
    // zero
    pub z: bool,
    pub bit5: bool,
    // half carry, or half borrow
    pub h: bool,
    pub bit3: bool,
    // parity or overflow
    pub pv: bool,
    // set by a subtraction
    pub n: bool,
    // carry, or borrow
    pub c: bool,
}

// F as a byte.
impl From<Flags> for u8 {
    ghost from_gives = { λ flags byte. byte ≡ of.byte flags };

    #[tactic(auto, using(crate::proofs::Packing::unpack_pack))]
    fn from(flags: Flags) -> u8
        ensures value { result ≡ of.byte flags }
        ensures back { of.from result ≡ flags }
    {
        flags.s as u8 * 128
            + flags.z as u8 * 64
            + flags.bit5 as u8 * 32
            + flags.h as u8 * 16
            + flags.bit3 as u8 * 8
            + flags.pv as u8 * 4
            + flags.n as u8 * 2
            + flags.c as u8
    }
}

// The flags that a byte of F holds.
impl From<u8> for Flags {
    ghost from_gives = { λ byte flags. flags ≡ of.from byte };

    #[tactic(auto, using(crate::proofs::Packing::pack_unpack))]
    fn from(byte: u8) -> Flags
        ensures value { result ≡ of.from byte }
        ensures back { of.byte result ≡ byte }
    {
        Flags {
            s: byte / 128 % 2 == 1,
            z: byte / 64 % 2 == 1,
            bit5: byte / 32 % 2 == 1,
            h: byte / 16 % 2 == 1,
            bit3: byte / 8 % 2 == 1,
            pv: byte / 4 % 2 == 1,
            n: byte / 2 % 2 == 1,
            c: byte % 2 == 1,
        }
    }
}

impl Flags {
    // The flags that show a byte: S, Z and even parity of it, H and N 0; C stays.
    pub(crate) fn showing(self, value: u8) -> Flags
        ensures { result ≡ of.showing self value false self.c }
    {
        Flags {
            s: value >= 128,
            z: value == 0,
            h: false,
            pv: even_parity(value),
            n: false,
            ..self
        }
    }

    // C as given, H and N 0; the rest stays.
    pub(crate) fn carrying(self, c: bool) -> Flags
        ensures { result ≡ of.row self self.s self.z false self.pv false c }
    {
        Flags {
            h: false,
            n: false,
            c,
            ..self
        }
    }
}

// Whether a byte has an even number of ones.
#[tactic(auto, using(crate::proofs::Ones::ones_of_byte))]
pub fn even_parity(byte: u8) -> bool
    ensures { result ≡ of.even_parity byte }
{
    let ones = byte.count_ones();
    ones % 2 == 0
}
