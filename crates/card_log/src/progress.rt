// How far a log has come that is served in pieces.
ghost use Rattle.card_log.specs.Joining.{counted};
ghost use Rattle.opened.specs.Pages.{joined, none, pages_of};
ghost use Rattle.std.specs.Prelude.{◌≡◌, ◌+◌, ◌-◌, ◌^◌, None, min};

use opened::pages::Pages;

// Of all pieces, as if they were one log: the lines served, the pages opened, and the first line at which the answers of two cards
// differ. A count of lines goes to 2^64 - 1 and stays there.
#[derive(Drop)]
pub struct Progress {
    pub lines: usize,
    pub opened: Pages,
    pub difference: Option<usize>,
}

impl Progress {
    // Nothing was served yet.
    pub fn new() -> Progress
        ensures lines { result.lines ≡ 0 }
        ensures opened { pages_of result.opened ≡ none }
        ensures difference { result.difference ≡ None }
    {
        Progress {
            lines: 0,
            opened: Pages::none(),
            difference: None,
        }
    }

    // One more piece was served.
    pub fn add(&mut self, served: usize, opened: &Pages, difference: Option<usize>)
        ensures lines { self.new.lines ≡ min (self.old.lines + served) (2 ^ 64 - 1) }
        ensures opened { pages_of self.new.opened ≡ joined (pages_of self.old.opened) (pages_of opened.now) }
        ensures difference { self.new.difference ≡ counted self.old.difference self.old.lines difference }
    {
        self.difference = match (self.difference, difference) {
            (None, Some(line)) => Some(self.lines.saturating_add(line)),
            (earlier, _) => earlier,
        };
        self.lines = self.lines.saturating_add(served);
        self.opened.join(opened);
    }
}
