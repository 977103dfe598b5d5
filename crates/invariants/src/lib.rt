// What every step keeps, of every card. There is no code to run here: each function names a law, so that it is proved, and
// does nothing.
#![tactic(auto)]

ghost use Rattle.invariants.specs.Fetches.{FetchesInOrder};
ghost use Rattle.invariants.specs.Refresh.{RefreshKept};
ghost use Rattle.invariants.specs.Room.{OutputRoom};
ghost use Rattle.invariants.specs.Spare.{SpareKept};

use panel::Panel;

// With every make of panel: bit 7 of R changes by LD R,A only.
pub fn refresh_kept<P: Panel>()
    ensures { RefreshKept P.Panel.make }
{}

// Bits 5 and 3 of F change by POP AF and EX AF,AF' only.
pub fn spare_kept<P: Panel>()
    ensures { SpareKept P.Panel.make }
{}

// A step fetches code from PC on in order, and no byte past the end of what it executes.
pub fn fetches_in_order<P: Panel>()
    ensures { FetchesInOrder P.Panel.make }
{}

// A step that is not denied finds room for what it writes to the panel.
pub fn output_room<P: Panel>()
    ensures { OutputRoom P.Panel.make }
{}
