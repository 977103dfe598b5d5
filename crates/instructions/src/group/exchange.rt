// The stack, and exchanges.
ghost use Rattle.instructions.specs.Length as bytes;
ghost use Rattle.std.specs.Prelude.{◌≡◌};

use registers::operand::{Index, StackPair};

#[derive(Clone, Copy)]
pub enum Exchange {
    // PUSH zz
    Push(StackPair),
    // PUSH IX
    PushIndex(Index),
    // POP zz
    Pop(StackPair),
    // POP IX
    PopIndex(Index),
    // EX AF,AF'
    AfAlternate,
    // EX DE,HL
    DeHl,
    // EXX
    Alternates,
    // EX (SP),HL
    StackHl,
    // EX (SP),IX
    StackIndex(Index),
}

impl Exchange {
    pub(crate) fn length(self) -> usize
        ensures { result ≡ bytes.of_exchange self }
    {
        match self {
            Exchange::Push(_)
            | Exchange::Pop(_)
            | Exchange::AfAlternate
            | Exchange::DeHl
            | Exchange::Alternates
            | Exchange::StackHl => 1,
            Exchange::PushIndex(_) | Exchange::PopIndex(_) | Exchange::StackIndex(_) => 2,
        }
    }
}
