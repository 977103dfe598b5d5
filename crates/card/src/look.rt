// A look that stands: the card's window is set aside, and put back on every way out.
ghost use Rattle.card.specs.Looks.{filled, filling};
ghost use Rattle.denial.specs.Denials.{answered};
ghost use Rattle.std.specs.Prelude.{◌≡◌, length};

use denial::Denial;
use memory::Memory;
use registers::window::Window;
use view::fill_through;

// The most bytes that a look fills.
pub const LONGEST: usize = 4096;

// Of the card it borrows the three bytes of the window to change them, and the memory to read it.
pub struct Look<'a, M> {
    pub(crate) window: &'a mut Window,
    pub(crate) saved: Window,
    pub(crate) memory: &'a M,
}

impl<M> Drop for Look<'_, M> {
    fn drop(self)
        ensures { self.exit.0.now ≡ self.entry.saved }
    {
        // taken apart, since letting it go whole would call `drop` again
        let Look {
            window,
            saved,
            memory: _,
        } = self;
        *window = saved;
    }
}

impl<'a, M: Memory> Look<'a, M> {
    // Fills a buffer from a logical address on, through the look's window; or 7, and the buffer is as it was.
    #[tactic(auto, unfolding(processor::specs::Run::looked, view::specs::Views::shown))]
    pub fn fill(&self, at: u16, buffer: &mut [u8]) -> Result<(), Denial>
        ensures answer { answered result ≡ filling (length buffer.old) }
        ensures buffer { buffer.new ≡ filled (M.memory self.now.memory.now).byte self.now.window.now at buffer.old }
    {
        if buffer.len() > LONGEST {
            return Err(Denial::LookOutOfRange);
        }
        fill_through(self.memory, *self.window, at, buffer);
        Ok(())
    }

    // Ends the look: it is let go here, and `drop` puts the card's own window back.
    pub fn end(self)
        ensures { self.exit.0.now ≡ self.entry.saved }
    {}
}
