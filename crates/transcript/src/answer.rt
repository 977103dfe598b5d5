// The line of an answer.
ghost use Rattle.answers.specs.Answers.{answer_of};
ghost use Rattle.card.specs.Cards.{ran_of};
ghost use Rattle.machine.specs.Machines.{tally};
ghost use Rattle.plot.specs.Lines.{line};
ghost use Rattle.std.specs.Prelude.{◌≡◌, ◌∷◌, ◌++◌, map, string_bytes, OnOk, Some, codes};
ghost use Rattle.text.specs.Hexadecimal.{hex_byte};
ghost use Rattle.transcript.specs.Answers.{answer_text, answers_text, bytes_text, run_text, step_text};

use crate::denied::denial_line;
use crate::fault::Faulted;
use answers::answer::Answer;
use card::ran::{Ran, Stop};
use machine::cost::Cost;
use plot::run_line::RunLine;
use std::alloc::AllocError;
use std::fmt;

#[derive(Clone, Copy)]
struct StepText(Cost);

impl fmt::Display for StepText {
    ghost output = { λ s. Some (step_text (tally s.0)) };

    #[tactic(auto, unfolding(crate::specs::Answers::step_text))]
    fn fmt<W: fmt::Write>(&self, f: &mut fmt::Formatter<W>) -> fmt::Result {
        let cycles = self.0.cycles;
        let states = self.0.states;
        write!(f, "step cycles={cycles} states={states}")
    }
}

#[derive(Clone, Copy)]
struct RunText(Ran);

impl fmt::Display for RunText {
    ghost output = { λ r. Some (run_text (ran_of r.0)) };

    #[tactic(auto, unfolding(crate::specs::Answers::run_text))]
    fn fmt<W: fmt::Write>(&self, f: &mut fmt::Formatter<W>) -> fmt::Result {
        let run = RunLine(self.0);
        match self.0.stop {
            Stop::Fault(fault) => {
                let fault = Faulted(fault);
                write!(f, "run {run} {fault}")
            }
            Stop::Halted | Stop::Spent => write!(f, "run {run}"),
        }
    }
}

#[tactic(auto, using(text::proofs::Written::printed))]
fn byte(text: &mut String, byte: u8) -> Result<(), AllocError>
    ensures { OnOk result (string_bytes text.new ≡ string_bytes text.old ++ (32 ∷ hex_byte byte)) }
{
    write!(text, " {byte:02X}")
}

// What a look saw.
fn look(text: &mut String, bytes: &[u8]) -> Result<(), AllocError>
    ensures { OnOk result (string_bytes text.new ≡ string_bytes text.old ++ line (codes "look" ++ bytes_text bytes.now)) }
{
    write!(text, "look")?;
    for seen in bytes {
        byte(text, *seen)?;
    }
    writeln!(text, "")
}

pub fn answer_line(text: &mut String, answer: &Answer) -> Result<(), AllocError>
    ensures { OnOk result (string_bytes text.new ≡ string_bytes text.old ++ line (answer_text (answer_of answer.now))) }
{
    match answer {
        Answer::Step(Ok(cost)) => {
            let step = StepText(*cost);
            writeln!(text, "{step}")
        }
        Answer::Step(Err(fault)) => {
            let fault = Faulted(*fault);
            writeln!(text, "{fault}")
        }
        Answer::Run(Ok(ran)) => {
            let run = RunText(*ran);
            writeln!(text, "{run}")
        }
        Answer::Reset => writeln!(text, "reset"),
        Answer::Look(Ok(bytes)) => look(text, bytes.as_slice()),
        Answer::Run(Err(denial)) | Answer::Look(Err(denial)) => denial_line(text, *denial),
    }
}

pub fn answer_lines(text: &mut String, answers: &[Answer]) -> Result<(), AllocError>
    ensures { OnOk result (string_bytes text.new ≡ string_bytes text.old ++ answers_text (map answer_of answers.now)) }
{
    for answer in answers {
        answer_line(text, answer)?;
    }
    Ok(())
}
