// Jumps.
ghost use Rattle.instructions.specs.Length as bytes;
ghost use Rattle.std.specs.Prelude.{◌≡◌};

use registers::operand::{Condition, Index};

#[derive(Clone, Copy)]
pub enum Jump {
    // JP mn
    Always,
    // JP f,mn
    If(Condition),
    // JP (HL)
    Hl,
    // JP (IX)
    Index(Index),
    // JR e
    Relative,
    // JR NZ,e, JR Z,e, JR NC,e and JR C,e
    RelativeIf(Condition),
    // DJNZ e
    Count,
}

impl Jump {
    pub(crate) fn length(self) -> usize
        ensures { result ≡ bytes.of_jump self }
    {
        match self {
            Jump::Hl => 1,
            Jump::Index(_) | Jump::Relative | Jump::RelativeIf(_) | Jump::Count => 2,
            Jump::Always | Jump::If(_) => 3,
        }
    }
}
