// A denied step: the denial, and where PC stood.
ghost use Rattle.answers.specs.Answers.{faulted};
ghost use Rattle.std.specs.Prelude.{Some};
ghost use Rattle.transcript.specs.Denials.{fault_text};

use crate::denied::Denied;
use denial::Fault;
use std::fmt;

#[derive(Clone, Copy)]
pub(crate) struct Faulted(pub(crate) Fault);

impl fmt::Display for Faulted {
    ghost output = { λ f. Some (fault_text (faulted f.0)) };

    #[tactic(auto, using(text::proofs::Written::printed), unfolding(crate::specs::Denials::fault_text))]
    fn fmt<W: fmt::Write>(&self, f: &mut fmt::Formatter<W>) -> fmt::Result {
        let denied = Denied(self.0.denial);
        let pc = self.0.pc;
        write!(f, "{denied} pc={pc:04X}")
    }
}
