// Laws of the processor's definition: on cards set up for it, the order in which a step uses memory, and sleep behind EI; then
// what holds on every card. There is no code to run here: each function names laws, so that they are proved, and does nothing.
#![tactic(auto)]

ghost use Rattle.card_laws.specs.Asleep.{IdlesBehindEi};
ghost use Rattle.card_laws.specs.Every.{Branches, Every};
ghost use Rattle.card_laws.specs.Frame.{Frame};
ghost use Rattle.card_laws.specs.Order.{Orders};
ghost use Rattle.card_laws.specs.Resets.{Resets};
ghost use Rattle.card_laws.specs.Runs.{RunLaws};
ghost use Rattle.card_laws.specs.Time.{StepTime};
ghost use Rattle.card_laws.specs.Worked.{WorkedNumbers};

use panel::Panel;

pub fn orders()
    ensures { Orders }
{}

pub fn asleep()
    ensures { IdlesBehindEi }
{}

// What follows holds with every make of panel.
pub fn every_card<P: Panel>()
    ensures plain { Every P.Panel.make }
    ensures branches { Branches P.Panel.make }
{}

pub fn worked_numbers<P: Panel>()
    ensures { WorkedNumbers P.Panel.make }
{}

pub fn step_time<P: Panel>()
    ensures { StepTime P.Panel.make }
{}

pub fn run_laws<P: Panel>()
    ensures { RunLaws P.Panel.make }
{}

pub fn trap_frame<P: Panel>()
    ensures { Frame P.Panel.make }
{}

pub fn reset_values<P: Panel>()
    ensures { Resets P.Panel.State }
{}
