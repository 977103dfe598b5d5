// The listing: what a window shows of an image, as text.
ghost use Rattle.std.specs.Prelude.{◌≡◌, ℕ, ◌++◌, map, IfOk, string_bytes, OnOk};
ghost use Rattle.pagemap.specs.Listing.{Answers, asked, text_of_map, opened_text, pages_text};

use crate::arguments::window;
use crate::head::Head;
use crate::held::page_if;
use crate::image::Image;
use crate::report::PageReport;
use crate::unlisted::Unlisted;
use memory::Memory;
use memory::bank::Bank;
use memory::length::BoardLength;
use registers::window::Window;
use std::alloc::{AllocError, Global};

// A line for each of the sixteen logical pages.
fn pages<M: Memory>(text: &mut String, image: &Image<'_, M>) -> Result<(), AllocError>
    ensures { OnOk result (string_bytes text.new ≡ string_bytes text.old ++ pages_text (M.memory image.now.memory.now) image.now.bytes image.now.window 16) }
{
    for page in 0..16u8 {
        let report = PageReport::of(image, page);
        writeln!(text, "{report}")?;
    }
    Ok(())
}

// All physical pages that the window opens on.
fn opened(text: &mut String, window: Window) -> Result<(), AllocError>
    ensures { OnOk result (string_bytes text.new ≡ string_bytes text.old ++ opened_text window) }
{
    for page in 0..128u8 {
        page_if(text, window.opens_on(page), page)?;
    }
    Ok(())
}

// The listing of an image.
fn map_text<M: Memory>(heap: Global, image: &Image<'_, M>) -> Result<String, AllocError>
    ensures { IfOk result (λ text. string_bytes text ≡ text_of_map (M.memory image.now.memory.now) image.now.bytes image.now.window) }
{
    let head = Head {
        bytes: image.bytes,
        window: image.window,
    };
    let mut text = String::new(heap);
    write!(text, "{head}")?;
    pages(&mut text, image)?;
    write!(text, "opens on")?;
    opened(&mut text, image.window)?;
    writeln!(text, "")?;
    Ok(text)
}

// What the program prints: the listing of the image under the window that the arguments ask for, or why there is none.
pub fn listing(heap: Global, image: &mut [u8], arguments: &[String]) -> Result<String, Unlisted>
    ensures answer { Answers result (asked (map string_bytes arguments.now) image.old) }
    ensures same { image.new ≡ image.old }
{
    let size = BoardLength::of_bank(image).map_err(|_| Unlisted::TooLong)?;
    let window = window(arguments)?;
    let bytes = image.len();
    let bank = Bank::new(image, size);
    let image = Image {
        memory: &bank,
        bytes,
        window,
    };
    let text = map_text(heap, &image)?;
    Ok(text)
}
