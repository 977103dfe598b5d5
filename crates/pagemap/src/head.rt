// The lines before the pages: the image's length, the window, the columns' names.
ghost use Rattle.pagemap.specs.Lines.{head_text};
ghost use Rattle.std.specs.Prelude.{Some};

use registers::window::Window;
use std::fmt;

#[derive(Clone, Copy, Debug)]
pub struct Head {
    pub bytes: usize,
    pub window: Window,
}

impl fmt::Display for Head {
    ghost output = { λ h. Some (head_text h.bytes h.window) };

    fn fmt<W: fmt::Write>(&self, f: &mut fmt::Formatter<W>) -> fmt::Result {
        let bytes = self.bytes;
        let cbar = self.window.cbar;
        let cbr = self.window.cbr;
        let bbr = self.window.bbr;
        write!(
            f,
            "image   {bytes} bytes\nwindow  CBAR {cbar:02X}  CBR {cbr:02X}  BBR {bbr:02X}\npage  area           shows  address  bytes  crc-32\n"
        )
    }
}
