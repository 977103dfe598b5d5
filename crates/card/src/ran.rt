// What a run answers.
ghost use Rattle.card.specs.Cards.{stop_of};
ghost use Rattle.card.specs.Stops.{stop_name};
ghost use Rattle.std.specs.Prelude.{◌≡◌, ◌+◌, ◌<◌, ◌^◌, Some};

use denial::Fault;
use machine::cost::Cost;
use std::fmt;

// Why a run stopped: a step was denied, the card is halted or asleep, or the budget is spent.
#[derive(Clone, Copy, Debug, PartialEq, Eq)]
pub enum Stop {
    Fault(Fault),
    Halted,
    Spent,
}

impl fmt::Display for Stop {
    ghost output = { λ s. Some (stop_name (stop_of s)) };

    fn fmt<W: fmt::Write>(&self, f: &mut fmt::Formatter<W>) -> fmt::Result {
        f.write_str(match self {
            Stop::Fault(_) => "fault",
            Stop::Halted => "halted",
            Stop::Spent => "spent",
        })
    }
}

// The stop, and the steps that were not denied with their cycles and states.
#[derive(Clone, Copy, Debug, PartialEq, Eq)]
pub struct Ran {
    pub stop: Stop,
    pub steps: u32,
    pub cycles: u64,
    pub states: u64,
}

impl Ran {
    // Counts a step that was not denied.
    pub(crate) fn count(&mut self, cost: Cost)
        requires steps { self.old.steps + 1 < 2 ^ 32 }
        requires cycles { self.old.cycles + cost.cycles < 2 ^ 64 }
        requires states { self.old.states + cost.states < 2 ^ 64 }
        ensures { self.new ≡ record { stop = self.old.stop; steps = self.old.steps + 1; cycles = self.old.cycles + cost.cycles; states = self.old.states + cost.states } }
    {
        self.steps += 1;
        self.cycles += u64::from(cost.cycles);
        self.states += u64::from(cost.states);
    }
}
