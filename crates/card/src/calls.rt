// Making a card, step, run and reset.
ghost use Rattle.std.specs.Prelude.{◌≡◌, ◌≤◌, if◌then◌else◌};
ghost use Rattle.card.specs.Cards.{came, model, ran, run_called, seen};
ghost use Rattle.card.specs.Witnesses.{after_steps, witnessed};
ghost use Rattle.cycles.specs.Footprint.{Few};
ghost use Rattle.execution.specs.Steps.{Secluded};
ghost use Rattle.processor.specs.Isolation.{ChangesFew, Each};
ghost use Rattle.processor.specs.Log.{made};
ghost use Rattle.processor.specs.Run as running;
ghost use Rattle.processor.specs.Step as stepping;

use crate::card::Card;
use crate::ran::{Ran, Stop};
use crate::witness::{Nobody, Witness};
use denial::{Denial, Fault};
use execution::step::step;
use machine::cost::Cost;
use machine::state::Machine;
use memory::Memory;
use panel::Panel;
use registers::registers::{Mode, Registers};
use registers::window::Window;

// The largest budget of a run, in states.
const MOST: u32 = 1_000_000;

impl<M: Memory, P: Panel> Card<M, P> {
    // A card over a memory and a panel, with its registers as after reset.
    pub fn new(memory: M, panel: P) -> Card<M, P>
        ensures model { model M.memory P.state result ≡ made (M.memory memory) (P.state panel) }
        ensures memory { result.machine.memory ≡ memory }
        ensures panel { result.machine.panel ≡ panel }
    {
        Card {
            machine: Machine {
                cpu: Registers::new(),
                window: Window::RESET,
                memory,
                panel,
                spent: Cost::default(),
            },
        }
    }

    // One step, or a fault that changes nothing.
    pub fn step(&mut self) -> Result<Cost, Fault>
        ensures turn { seen M.memory P.state result self.new ≡ stepping.step P.make (model M.memory P.state self.old) }
        ensures few { Few self.old.machine.window 2 (M.memory self.old.machine.memory) (M.memory self.new.machine.memory) }
        ensures secluded { Secluded P.make (model M.memory P.state self.old) (seen M.memory P.state result self.new) }
    {
        step(&mut self.machine)
    }

    // Steps until one is denied, or leaves the card halted or asleep, or the budget of states is spent; 6 for a budget outside
    // 1 to 1,000,000.
    #[tactic(auto, using(processor::proofs::Logs::run_few))]
    pub fn run(&mut self, budget: u32) -> Result<Ran, Denial>
        ensures run { ran M.memory P.state result self.new ≡ run_called P.make budget (model M.memory P.state self.old) }
        ensures few { Each ChangesFew (running.run P.make budget (model M.memory P.state self.old)).steps }
    {
        self.run_witnessed(budget, &mut Nobody)
    }

    // The same, seen by a witness.
    pub fn run_witnessed<W: Witness>(&mut self, budget: u32, witness: &mut W) -> Result<Ran, Denial>
        ensures run { ran M.memory P.state result self.new ≡ run_called P.make budget (model M.memory P.state self.old) }
        ensures noted { W.state witness.new ≡ (if running.is_budget budget then after_steps W.noted (W.state witness.old) (running.run P.make budget (model M.memory P.state self.old)).steps else W.state witness.old) }
    {
        if !(1..=MOST).contains(&budget) {
            return Err(Denial::BudgetOutOfRange);
        }
        Ok(self.run_on(budget, witness))
    }

    fn run_on<W: Witness>(&mut self, budget: u32, witness: &mut W) -> Ran
        requires { budget ≤ 1000000 }
        ensures { record { came = came M.memory P.state result self.new; noted = W.state witness.new } ≡ witnessed W.noted (W.state witness.old) (running.run P.make budget (model M.memory P.state self.old)) }
    {
        let mut ran = Ran {
            stop: Stop::Spent,
            steps: 0,
            cycles: 0,
            states: 0,
        };
        // each step takes states, so the budget is spent after no more steps than it has states
        for _ in 0..budget {
            let window = self.machine.window;
            match self.step() {
                Ok(cost) => {
                    witness.note(window);
                    ran.count(cost);
                }
                Err(fault) => {
                    return Ran {
                        stop: Stop::Fault(fault),
                        ..ran
                    };
                }
            }
            if rests(self.machine.cpu.mode) {
                return Ran {
                    stop: Stop::Halted,
                    ..ran
                };
            }
            if ran.states >= u64::from(budget) {
                return ran;
            }
        }
        ran
    }

    // All registers as after making; memory and panel are not touched.
    pub fn reset(&mut self)
        ensures model { model M.memory P.state self.new ≡ running.reset (model M.memory P.state self.old) }
        ensures memory { self.new.machine.memory ≡ self.old.machine.memory }
        ensures panel { self.new.machine.panel ≡ self.old.machine.panel }
    {
        self.machine.cpu = Registers::new();
        self.machine.window = Window::RESET;
    }
}

// Whether a card is halted or asleep.
fn rests(mode: Mode) -> bool
    ensures { result ≡ running.rests mode }
{
    mode != Mode::Running
}
