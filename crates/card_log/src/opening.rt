// The pages that a log has opened so far.
ghost use Rattle.opened.specs.Pages.{joined, none, pages_of};
ghost use Rattle.registers.specs.Window.{opens_on};
ghost use Rattle.std.specs.Prelude.{◌≡◌, ℕ, Bool};
ghost use Rattle.std.specs.Option.{ForSome};

use card::witness::Witness;
use opened::pages::Pages;
use registers::window::Window;

// The window that was opened last is kept beside the pages, since mostly the next step begins with the same one.
#[derive(Drop)]
pub(crate) struct Opening {
    pages: Pages,
    last: Option<Window>,
    ghost last_in: { ForSome last (λ w. joined (pages_of pages) (opens_on w) ≡ pages_of pages) },
}

impl Opening {
    pub(crate) fn new() -> Opening
        ensures { pages_of result.pages ≡ none }
    {
        Opening {
            pages: Pages::none(),
            last: None,
        }
    }

    pub(crate) fn pages(self) -> Pages
        ensures { result ≡ self.pages }
    {
        let Opening { pages, last: _ } = self;
        pages
    }
}

impl Witness for Opening {
    ghost State = { ℕ → Bool };

    ghost noted = { λ s w. joined s (opens_on w) };

    ghost state = { λ o. pages_of o.pages };

    fn note(&mut self, window: Window) {
        if self.last == Some(window) {
            return;
        }
        self.pages.open(window);
        self.last = Some(window);
    }
}
