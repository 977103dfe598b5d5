// Panels as text.
ghost use Rattle.panel.specs.Chains.{used};
ghost use Rattle.plot.specs.Lines.{line};
ghost use Rattle.std.specs.Prelude.{◌≡◌, ℕ, List, ◌++◌, length, string_bytes, OnOk, Some};
ghost use Rattle.panel.specs.Script.{script_state};
ghost use Rattle.panel.specs.Shown.{chain_state};
ghost use Rattle.transcript.specs.Panels.{chain_panel_text, chain_text, last_text, script_panel_text, script_text, sent_text};

use crate::register_lines::Bit;
use panel::Panel;
use panel::chain::Chain;
use panel::script::Script;
use panel::sent::Sent;
use plot::chains::chains;
use std::alloc::AllocError;
use std::fmt;

// A panel that can be printed.
pub trait Shown: Panel {
    ghost panel_text: { Self → List ℕ };

    fn show(&self, text: &mut String) -> Result<(), AllocError>
        ensures { OnOk result (string_bytes text.new ≡ string_bytes text.old ++ panel_text self.now) };
}

#[derive(Clone, Copy)]
struct ChainLine<'a>(&'a Chain);

impl fmt::Display for ChainLine<'_> {
    ghost output = { λ l. Some (chain_text (chain_state l.0.now)) };

    #[tactic(auto, using(text::proofs::Written::printed), unfolding(crate::specs::Panels::chain_text))]
    fn fmt<W: fmt::Write>(&self, f: &mut fmt::Formatter<W>) -> fmt::Result {
        let used = self.0.used();
        let usable = self.0.usable();
        let key = self.0.key();
        let latch = Bit(self.0.latch());
        write!(
            f,
            "chain used={used} of={usable} key={key:02X} latch={latch}"
        )
    }
}

impl Shown for Chain {
    ghost panel_text = { λ p. chain_panel_text (chain_state p) };

    fn show(&self, text: &mut String) -> Result<(), AllocError> {
        let line = ChainLine(self);
        writeln!(text, "{line}")?;
        chains(text, self)
    }
}

#[derive(Clone, Copy)]
struct SentText(Sent);

impl fmt::Display for SentText {
    ghost output = { λ s. Some (sent_text s.0) };

    #[tactic(auto, using(text::proofs::Written::printed), unfolding(crate::specs::Panels::sent_text))]
    fn fmt<W: fmt::Write>(&self, f: &mut fmt::Formatter<W>) -> fmt::Result {
        let port = self.0.port;
        let byte = self.0.byte;
        write!(f, "{port:04X}:{byte:02X}")
    }
}

#[derive(Clone, Copy)]
struct Last(Option<Sent>);

impl fmt::Display for Last {
    ghost output = { λ l. Some (last_text l.0) };

    fn fmt<W: fmt::Write>(&self, f: &mut fmt::Formatter<W>) -> fmt::Result {
        match self.0 {
            Some(sent) => {
                let sent = SentText(sent);
                write!(f, "{sent}")
            }
            None => f.write_str("none"),
        }
    }
}

#[derive(Clone, Copy)]
struct ScriptLine<'a>(&'a Script);

impl fmt::Display for ScriptLine<'_> {
    ghost output = { λ l. Some (script_text (script_state l.0.now)) };

    #[tactic(auto, unfolding(crate::specs::Panels::script_text))]
    fn fmt<W: fmt::Write>(&self, f: &mut fmt::Formatter<W>) -> fmt::Result {
        let read = self.0.place();
        let length = self.0.length();
        let told = self.0.told();
        let acknowledged = Bit(self.0.acknowledged());
        let last = Last(self.0.last_write());
        write!(
            f,
            "script read={read} of={length} told={told} acknowledged={acknowledged} last={last}"
        )
    }
}

impl Shown for Script {
    ghost panel_text = { λ p. script_panel_text (script_state p) };

    fn show(&self, text: &mut String) -> Result<(), AllocError> {
        let line = ScriptLine(self);
        writeln!(text, "{line}")
    }
}
