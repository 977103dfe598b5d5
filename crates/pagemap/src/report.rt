// What is told of one logical page.
ghost use Rattle.std.specs.Prelude.{◌≡◌, ◌<◌, Some};
ghost use Rattle.pagemap.specs.Lines.{area_name, page_line, page_report};
ghost use Rattle.pagemap.specs.Pages.{present as present_of};

use crate::crc::crc32;
use crate::image::Image;
use memory::Memory;
use registers::window::Area;
use std::fmt;

// A logical page: its area, the physical page it shows, how many addresses of that the image has, and the CRC-32 of
// its bytes as they are read through the window.
#[derive(Clone, Copy, Debug)]
pub struct PageReport {
    pub page: u8,
    pub area: Area,
    pub shown: u8,
    pub present: u16,
    pub crc: u32,
}

// How many addresses of a physical page an image of so many bytes has.
fn present(bytes: usize, page: u8) -> u16
    ensures { result ≡ present_of bytes page }
{
    bytes.saturating_sub(usize::from(page) * 4096).min(4096) as u16
}

impl PageReport {
    // The report of a logical page of an image.
    pub fn of<M: Memory>(image: &Image<'_, M>, page: u8) -> PageReport
        requires { page < 16 }
        ensures { result ≡ page_report (M.memory image.now.memory.now) image.now.bytes image.now.window page }
    {
        let shown = image.window.shown_page(page);
        PageReport {
            page,
            area: image.window.area(page),
            shown,
            present: present(image.bytes, shown),
            crc: crc32(&image.page(page)),
        }
    }
}

impl fmt::Display for PageReport {
    ghost output = { λ r. Some (page_line r) };

    fn fmt<W: fmt::Write>(&self, f: &mut fmt::Formatter<W>) -> fmt::Result {
        // in one digit
        let page = self.page % 16;
        let area = self.area;
        let shown = self.shown;
        let address = u32::from(self.shown) * 4096;
        let present = self.present;
        let crc = self.crc;
        write!(
            f,
            "   {page:X}  {area:<13}     {shown:02X}    {address:05X}   {present:>4}  {crc:08X}"
        )
    }
}
