// All of a card as text.
ghost use Rattle.card.specs.Cards.{model};
ghost use Rattle.std.specs.Prelude.{◌≡◌, List, ℕ, ◌++◌, string_bytes, OnOk};
ghost use Rattle.transcript.specs.Shown.{GoesBy, card_text};

use crate::memory_line::memory_line;
use crate::register_lines::processor_lines;
use crate::shown::Shown;
use card::card::Card;
use memory::Memory;
use std::alloc::AllocError;

// Its registers, its panel, and the memory, which is of a board of so many bytes.
pub fn show<M: Memory, P: Shown>(
    text: &mut String,
    card: &Card<M, P>,
    length: usize,
) -> Result<(), AllocError>
    ensures { (state_text : P.State → List ℕ) → GoesBy P.panel_text P.state state_text → OnOk result (string_bytes text.new ≡ string_bytes text.old ++ card_text state_text length (model M.memory P.state card.now)) }
{
    let (cpu, window) = card.registers();
    processor_lines(text, cpu, window)?;
    card.panel().show(text)?;
    memory_line(text, card, length)
}
