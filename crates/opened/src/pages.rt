// A set of physical pages.
ghost use Rattle.opened.specs.Pages.{joined, none, pages_of};
ghost use Rattle.registers.specs.Window.{opens_on};
ghost use Rattle.std.specs.Prelude.{◌≡◌};

use registers::window::Window;

#[derive(Debug, Drop)]
pub struct Pages {
    // for each page, whether the set has it
    held: [bool; 128],
}

impl Pages {
    // The set of no page.
    pub fn none() -> Pages
        ensures { pages_of result ≡ none }
    {
        Pages { held: [false; 128] }
    }

    // Whether a page is in the set; none above 127 is.
    pub fn holds(&self, page: u8) -> bool
        ensures { result ≡ pages_of self.now page }
    {
        match self.held.get(usize::from(page)) {
            Some(held) => *held,
            None => false,
        }
    }

    // Puts the sixteen pages in that a window opens on.
    pub fn open(&mut self, window: Window)
        ensures { pages_of self.new ≡ joined (pages_of self.old) (opens_on window) }
    {
        for logical in 0..16u8 {
            self.held[usize::from(window.shown_page(logical))] = true;
        }
    }

    // Puts the pages of another set in.
    pub fn join(&mut self, other: &Pages)
        ensures { pages_of self.new ≡ joined (pages_of self.old) (pages_of other.now) }
    {
        for page in 0..128usize {
            self.held[page] |= other.held[page];
        }
    }
}
