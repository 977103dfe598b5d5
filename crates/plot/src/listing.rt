// The listing: how a run ended, the registers it left, and every record of the three chains.
ghost use Rattle.card.specs.Cards.{ran_of};
ghost use Rattle.panel.specs.Shown.{chain_state};
ghost use Rattle.plot.specs.Listing.{Lists, text_of_plot};

use crate::chains::chains;
use crate::register_line::RegisterLine;
use crate::run_line::RunLine;
use crate::unplotted::Unplotted;
use card::ran::Ran;
use panel::chain::Chain;
use registers::registers::Registers;
use registers::window::Window;
use std::alloc::Global;

// The listing of a run, of the registers and the window that it left, and of the panel. The four are parameters: a struct of them
// would be made at each call and taken apart here.
pub fn listing(
    heap: Global,
    ran: Ran,
    cpu: Registers,
    window: Window,
    panel: &Chain,
) -> Result<String, Unplotted>
    ensures { Lists result (text_of_plot (ran_of ran) cpu window (chain_state panel.now)) }
{
    let run = RunLine(ran);
    let registers = RegisterLine { cpu, window };
    let mut text = String::new(heap);
    writeln!(text, "{run}\n{registers}")?;
    chains(&mut text, panel)?;
    Ok(text)
}
