// Names the laws, so that they are proved; each function does nothing.
ghost use Rattle.opened.specs.Laws.{OpenedLaws, SetLaws};

use panel::Panel;

// Joining two sets of pages is a union.
#[tactic(auto, using(crate::proofs::Sets::laws))]
pub fn set_laws()
    ensures { SetLaws }
{}

// The pages that a list of calls opens are just those that isolation has to presume.
pub fn opened_laws<P: Panel>()
    ensures { OpenedLaws P.Panel.make }
{}
