// The operations that change a byte in place, and F with it.
ghost use Rattle.arithmetic.specs.declared.flags.Flags.{Flags};
ghost use Rattle.arithmetic.specs.Bits as bits;
ghost use Rattle.arithmetic.specs.Increment as one;
ghost use Rattle.arithmetic.specs.Rotate as rotate;
ghost use Rattle.std.specs.Prelude.{◌≡◌, ℕ};

use arithmetic::bits;
use arithmetic::flags::Flags;
use arithmetic::increment::{decrement, increment};
use arithmetic::rotate::Rotate;

// A trait and no closure: what is done to memory needs its rule as a function, and of a closure only what it may answer is known.
pub(crate) trait Change: Copy {
    ghost rule: { Self → ℕ → Flags → ℕ × Flags };

    fn change(self, byte: u8, flags: Flags) -> (u8, Flags)
        ensures { result ≡ rule self byte flags };
}

#[derive(Clone, Copy)]
pub(crate) struct Increment;

#[derive(Clone, Copy)]
pub(crate) struct Decrement;

// A bit by its number.
#[derive(Clone, Copy)]
pub(crate) struct Reset(pub(crate) u8);

#[derive(Clone, Copy)]
pub(crate) struct Set(pub(crate) u8);

impl Change for Increment {
    ghost rule = { λ _ byte flags. one.increment byte flags };

    fn change(self, byte: u8, flags: Flags) -> (u8, Flags) {
        increment(byte, flags)
    }
}

impl Change for Decrement {
    ghost rule = { λ _ byte flags. one.decrement byte flags };

    fn change(self, byte: u8, flags: Flags) -> (u8, Flags) {
        decrement(byte, flags)
    }
}

impl Change for Rotate {
    ghost rule = { λ kind byte flags. rotate.apply kind byte flags };

    fn change(self, byte: u8, flags: Flags) -> (u8, Flags) {
        self.apply(byte, flags)
    }
}

impl Change for Reset {
    ghost rule = { λ of byte flags. bits.reset of.0 byte flags };

    fn change(self, byte: u8, flags: Flags) -> (u8, Flags) {
        bits::reset(self.0, byte, flags)
    }
}

impl Change for Set {
    ghost rule = { λ of byte flags. bits.set of.0 byte flags };

    fn change(self, byte: u8, flags: Flags) -> (u8, Flags) {
        bits::set(self.0, byte, flags)
    }
}
