// A window that a look may have.
ghost use Rattle.card.specs.Looks.{has_bases};
ghost use Rattle.denial.specs.Denials.{answered_by, numbered};
ghost use Rattle.std.specs.Prelude.{◌≡◌, true, if◌then◌else◌, Ok, Err};

use denial::Denial;
use registers::window::Window;

// Its bases are at most 127.
#[derive(Clone, Copy)]
pub struct LookWindow {
    window: Window,
    ghost bases: { has_bases window ≡ true },
}

impl TryFrom<Window> for LookWindow {
    type Error = Denial;

    ghost try_from_gives = { λ window result. answered_by (λ l. l.window) result ≡ (if has_bases window then Ok window else Err (numbered 7)) };

    // Or 7.
    fn try_from(window: Window) -> Result<LookWindow, Denial> {
        if window.cbr >= 128 || window.bbr >= 128 {
            return Err(Denial::LookOutOfRange);
        }
        Ok(LookWindow { window })
    }
}

impl LookWindow {
    pub(crate) fn window(self) -> Window
        ensures { result ≡ self.window }
    {
        self.window
    }
}
