// The first line: how a run ended, and what it took.
ghost use Rattle.card.specs.Cards.{ran_of};
ghost use Rattle.plot.specs.Lines.{run_line};
ghost use Rattle.std.specs.Prelude.{Some};

use card::ran::Ran;
use std::fmt;

#[derive(Clone, Copy)]
pub struct RunLine(pub Ran);

impl fmt::Display for RunLine {
    ghost output = { λ l. Some (run_line (ran_of l.0)) };

    #[tactic(auto, unfolding(crate::specs::Lines::run_line))]
    fn fmt<W: fmt::Write>(&self, f: &mut fmt::Formatter<W>) -> fmt::Result {
        let stop = self.0.stop;
        let steps = self.0.steps;
        let cycles = self.0.cycles;
        let states = self.0.states;
        write!(
            f,
            "stop={stop} steps={steps} cycles={cycles} states={states}"
        )
    }
}
