// The definition of what the processor does in a step, and its laws. There is no code to run here: each function names a law,
// so that it is proved, and does nothing.
#![tactic(auto)]

ghost use Rattle.processor.specs.Denials.{DenialLaws};
ghost use Rattle.processor.specs.Example.{PresumptionMet};
ghost use Rattle.processor.specs.Isolation.{Isolation, IsolationFrom};
ghost use Rattle.processor.specs.Seclusion.{StepLaws};

use panel::Panel;

// With every make of panel: what a step does depends on no page that is not mapped, and it changes at most two bytes.
#[tactic(auto, using(crate::proofs::Steps::laws))]
pub fn step_laws<P: Panel>()
    ensures { StepLaws P.Panel.make }
{}

// Isolation, over every list of calls from the making of two cards on.
pub fn isolation<P: Panel>()
    ensures { Isolation P.Panel.make }
{}

// The same from any two cards on that are alike on the set, whatever was called on them before.
pub fn isolation_from<P: Panel>()
    ensures { IsolationFrom P.Panel.make }
{}

// What isolation presumes can be met, also by a log that changes the window.
#[tactic(auto, using(crate::proofs::Presumed::met))]
pub fn presumption_met()
    ensures { PresumptionMet }
{}

// A denied call changes nothing.
#[tactic(auto, using(crate::proofs::Denying::laws))]
pub fn denial_laws<P: Panel>()
    ensures { DenialLaws P.Panel.make }
{}
