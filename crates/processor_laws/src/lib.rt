// The processor's definition held against the data book. There is no code to run here: each function names laws, so that they
// are proved, and does nothing.
#![tactic(auto)]

ghost use Rattle.processor_laws.specs.Examples.{Examples};
ghost use Rattle.processor_laws.specs.Interrupts.{Entries, Instead};
ghost use Rattle.processor_laws.specs.Totals.{EdTotals, MainTotals, Pages, Totals};
ghost use Rattle.processor_laws.specs.Traps.{Traps};

pub fn totals()
    ensures main_page { MainTotals }
    ensures ed_page { EdTotals }
    ensures others { Totals }
    ensures pages { Pages }
{}

pub fn traps()
    ensures { Traps }
{}

pub fn interrupts()
    ensures entries { Entries }
    ensures instead { Instead }
{}

pub fn examples()
    ensures { Examples }
{}
