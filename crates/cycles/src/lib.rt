// The definition of what machine cycles do, and its laws. There is no code to run here: each function names a law, so that
// it is proved, and does nothing.
#![tactic(auto)]

ghost use Rattle.cycles.specs.Footprint.{TreeLaws};

use panel::Panel;

// Of every tree of machine cycles, whatever type of value it comes to, with every make of panel.
#[tactic(auto, using(crate::proofs::Trees::laws))]
pub fn tree_laws<V, P: Panel>()
    ensures { TreeLaws V P.Panel.make }
{}
