// Rotates and shifts of a byte, the accumulator's own rotates, and the rotates of digits through memory.
ghost use Rattle.arithmetic.specs.Rotate as of;
ghost use Rattle.std.specs.Prelude.{◌≡◌};

use crate::flags::Flags;

// Left and right stay two functions, of the digits too: they differ in each step, so that one with a direction would be no plainer.

// One place to the left: `low` comes in, and bit 7 goes to C.
fn left(value: u8, low: bool, flags: Flags) -> (u8, Flags)
    ensures { result ≡ of.left value low flags }
{
    let moved = value % 128 * 2 + u8::from(low);
    let flags = Flags {
        c: value >= 128,
        ..flags.showing(moved)
    };
    (moved, flags)
}

// One place to the right: `high` comes in, and bit 0 goes to C.
fn right(value: u8, high: bool, flags: Flags) -> (u8, Flags)
    ensures { result ≡ of.right value high flags }
{
    let moved = value / 2 + u8::from(high) * 128;
    let flags = Flags {
        c: value % 2 == 1,
        ..flags.showing(moved)
    };
    (moved, flags)
}

// A rotate's or a shift's kind.
#[derive(Clone, Copy, Debug)]
pub enum Rotate {
    // bit 7 comes in at bit 0
    Rlc,
    // bit 0 comes in at bit 7
    Rrc,
    // C comes in at bit 0
    Rl,
    // C comes in at bit 7
    Rr,
    // 0 comes in at bit 0
    Sla,
    // bit 7 stays
    Sra,
    // 0 comes in at bit 7
    Srl,
}

impl Rotate {
    // RLC, RRC, RL, RR, SLA, SRA and SRL
    pub fn apply(self, value: u8, flags: Flags) -> (u8, Flags)
        ensures { result ≡ of.apply self value flags }
    {
        match self {
            Rotate::Rlc => left(value, value >= 128, flags),
            Rotate::Rrc => right(value, value % 2 == 1, flags),
            Rotate::Rl => left(value, flags.c, flags),
            Rotate::Rr => right(value, flags.c, flags),
            Rotate::Sla => left(value, false, flags),
            Rotate::Sra => right(value, value >= 128, flags),
            Rotate::Srl => right(value, false, flags),
        }
    }

    // RLCA, RRCA, RLA and RRA, which keep S, Z and P/V.
    pub fn accumulator(self, a: u8, flags: Flags) -> (u8, Flags)
        ensures { result ≡ of.accumulator self a flags }
    {
        let (value, rotated) = self.apply(a, flags);
        (value, flags.carrying(rotated.c))
    }
}

// RLD: A's low digit, and the byte's two, move one place to the left. It answers A and the byte.
pub fn rld(a: u8, byte: u8, flags: Flags) -> ((u8, u8), Flags)
    ensures { result ≡ of.rld a byte flags }
{
    let value = a / 16 * 16 + byte / 16;
    let stored = byte % 16 * 16 + a % 16;
    ((value, stored), flags.showing(value))
}

// RRD: the same to the right.
pub fn rrd(a: u8, byte: u8, flags: Flags) -> ((u8, u8), Flags)
    ensures { result ≡ of.rrd a byte flags }
{
    let value = a / 16 * 16 + byte % 16;
    let stored = a % 16 * 16 + byte / 16;
    ((value, stored), flags.showing(value))
}
