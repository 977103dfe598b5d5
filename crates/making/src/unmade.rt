// Why a part is not made.
ghost use Rattle.making.specs.declared.unmade.Unmade.TheVariants as unmade;
ghost use Rattle.std.specs.Prelude.{◌≡◌};

use denial::Denial;
use std::alloc::AllocError;

#[derive(Clone, Copy, Debug, PartialEq, Eq)]
pub enum Unmade {
    Denied(Denial),
    // want of memory
    NoMemory,
}

impl From<AllocError> for Unmade {
    ghost from_gives = { λ _ u. u ≡ unmade.NoMemory };

    fn from(_: AllocError) -> Unmade {
        Self::NoMemory
    }
}

impl From<Denial> for Unmade {
    ghost from_gives = { λ d u. u ≡ unmade.Denied d };

    fn from(denial: Denial) -> Unmade {
        Self::Denied(denial)
    }
}
