// The pages of a set as text.
ghost use Rattle.pagemap.specs.Lines.{if_held};
ghost use Rattle.std.specs.Prelude.{◌≡◌, ◌++◌, string_bytes, OnOk};

use std::alloc::AllocError;

// A physical page behind a blank, if it is held. By itself and no loop over a set, since a window is asked another way than a list.
#[tactic(auto, using(text::proofs::Written::printed))]
pub fn page_if(text: &mut String, held: bool, page: u8) -> Result<(), AllocError>
    ensures { OnOk result (string_bytes text.new ≡ string_bytes text.old ++ if_held held page) }
{
    if !held {
        return Ok(());
    }
    write!(text, " {page:02X}")
}
