// The window: the three bytes that say which sixteen physical pages the 64 KiB logical space shows.
ghost use Rattle.std.specs.Fmt.{padded};
ghost use Rattle.std.specs.Prelude.{◌≡◌, ◌<◌, Some};
ghost use Rattle.registers.specs.Registers.{fresh_window};
ghost use Rattle.registers.specs.Window.{OpensOn, WindowLaws, area_name, area_of, base_of, opens_on, page_of, physical_of, shown_page};

use std::fmt;

#[derive(Clone, Copy, Debug, PartialEq, Eq)]
pub struct Window {
    pub cbar: u8,
    pub cbr: u8,
    pub bbr: u8,
}

// The three parts of the logical space, from its bottom to its top.
#[derive(Clone, Copy, Debug, PartialEq, Eq)]
pub enum Area {
    Common0,
    Bank,
    Common1,
}

impl fmt::Display for Area {
    ghost output = { λ area. Some (area_name area) };

    ghost styled_output = { λ area spec. Some (padded spec (area_name area)) };

    fn fmt<W: fmt::Write>(&self, f: &mut fmt::Formatter<W>) -> fmt::Result {
        f.pad(match self {
            Area::Common0 => "common area 0",
            Area::Bank => "bank area",
            Area::Common1 => "common area 1",
        })
    }
}

impl Window {
    // The window as reset leaves it.
    pub const RESET: Window = Window {
        cbar: 0xF0,
        cbr: 0,
        bbr: 0,
    };

    // The area of a logical page.
    pub fn area(self, page: u8) -> Area
        ensures { result ≡ area_of self page }
    {
        if page >= self.cbar / 16 {
            Area::Common1
        } else if page >= self.cbar % 16 {
            Area::Bank
        } else {
            Area::Common0
        }
    }

    // The base of an area, in pages.
    pub fn base(self, area: Area) -> u8
        ensures { result ≡ base_of self area }
    {
        match area {
            Area::Common0 => 0,
            Area::Bank => self.bbr,
            Area::Common1 => self.cbr,
        }
    }

    // The base of the area of a logical page, for every access. By `self.base(self.area(page))`, tried, the busy image takes a sixth
    // longer, and a quarter longer than by z80ex.
    fn base_under(self, page: u8) -> u8
        ensures { result ≡ base_of self (area_of self page) }
    {
        if self.cbar / 16 <= page {
            self.cbr
        } else if self.cbar % 16 <= page {
            self.bbr
        } else {
            0
        }
    }

    // The physical page that a logical page shows.
    pub fn shown_page(self, page: u8) -> u8
        ensures value { result ≡ shown_page self page }
        ensures bound { result < 128 }
    {
        ((u16::from(page) + u16::from(self.base_under(page))) % 128) as u8
    }

    // The physical address of a logical one.
    pub fn physical(self, at: u16) -> u32
        ensures value { result ≡ physical_of self at }
        ensures bound { result < 524288 }
        ensures opened { OpensOn self (page_of result) }
    {
        // one sum, since the low twelve bits carry nothing into the page
        let base = self.base_under((at / 4096) as u8);
        (u32::from(at) + u32::from(base) * 4096) % 524_288
    }

    // Whether some logical page shows a physical page.
    pub fn opens_on(self, page: u8) -> bool
        ensures { result ≡ opens_on self page }
    {
        (0..16).any(|logical| self.shown_page(logical) == page)
    }
}

// Names the laws of the window, and which window reset leaves, so that they are proved; it does nothing.
#[tactic(auto, using(crate::proofs::Opened::laws))]
pub fn window_laws()
    ensures laws { WindowLaws }
    ensures reset { Window.RESET ≡ fresh_window }
{}
