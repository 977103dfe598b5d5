// The pages that were opened.
ghost use Rattle.opened.specs.Pages.{pages_of};
ghost use Rattle.plot.specs.Lines.{line};
ghost use Rattle.std.specs.Prelude.{◌≡◌, ◌++◌, string_bytes, OnOk};
ghost use Rattle.transcript.specs.Opened.{opened_text};

use opened::pages::Pages;
use pagemap::held::page_if;
use std::alloc::AllocError;

// The physical pages that a set holds.
pub fn opened_line(text: &mut String, pages: &Pages) -> Result<(), AllocError>
    ensures { OnOk result (string_bytes text.new ≡ string_bytes text.old ++ line (opened_text (pages_of pages.now))) }
{
    write!(text, "opened")?;
    for page in 0..128u8 {
        page_if(text, pages.holds(page), page)?;
    }
    writeln!(text, "")
}
