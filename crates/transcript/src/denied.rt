// A denial: its number and its layer.
ghost use Rattle.denial.specs.Denials.{told};
ghost use Rattle.plot.specs.Lines.{line};
ghost use Rattle.std.specs.Prelude.{◌≡◌, ◌++◌, string_bytes, OnOk, Some};
ghost use Rattle.transcript.specs.Denials.{denial_text, layer_name};

use denial::{Denial, Layer};
use std::alloc::AllocError;
use std::fmt;

#[derive(Clone, Copy)]
struct LayerName(Layer);

impl fmt::Display for LayerName {
    ghost output = { λ l. Some (layer_name l.0) };

    fn fmt<W: fmt::Write>(&self, f: &mut fmt::Formatter<W>) -> fmt::Result {
        f.write_str(match self.0 {
            Layer::Making => "making",
            Layer::Memory => "memory",
            Layer::Card => "card",
            Layer::Panel => "panel",
        })
    }
}

#[derive(Clone, Copy)]
pub(crate) struct Denied(pub(crate) Denial);

impl fmt::Display for Denied {
    ghost output = { λ d. Some (denial_text (told d.0)) };

    #[tactic(auto, unfolding(crate::specs::Denials::denial_text))]
    fn fmt<W: fmt::Write>(&self, f: &mut fmt::Formatter<W>) -> fmt::Result {
        let number = self.0.number();
        let layer = LayerName(self.0.layer());
        write!(f, "denied {number} {layer}")
    }
}

// The line of a denial; it may be that of a making, which no log has.
pub fn denial_line(text: &mut String, denial: Denial) -> Result<(), AllocError>
    ensures { OnOk result (string_bytes text.new ≡ string_bytes text.old ++ line (denial_text (told denial))) }
{
    let denied = Denied(denial);
    writeln!(text, "{denied}")
}
