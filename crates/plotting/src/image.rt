// The plot of an image.
ghost use Rattle.std.specs.Prelude.{◌≡◌, ◌≤◌, true, length};
ghost use Rattle.panel.specs.Shown.{chain_state};
ghost use Rattle.plot.specs.Listing.{Lists};
ghost use Rattle.plotting.specs.Plotting.{Plots, image_text, run_for, run_text};
ghost use Rattle.processor.specs.Log.{made};
ghost use Rattle.processor.specs.Run.{is_budget};

use crate::answer::run_answer;
use crate::bench::{BYTES, bank_bytes, new_panel};
use answers::call::Call;
use card_log::replay::replay;
use memory::Memory;
use memory::bank::Bank;
use memory::length::BoardLength;
use panel::chain::Chain;
use plot::listing::listing;
use plot::unplotted::Unplotted;
use std::alloc::Global;

// How long the card runs, in states.
const STATES: u32 = 1000;

// The plot of a card over a memory and a panel, after a run.
fn run_listing<M: Memory + Drop>(
    heap: Global,
    memory: M,
    panel: Chain,
    states: u32,
) -> Result<String, Unplotted>
    requires { is_budget states ≡ true }
    ensures { Lists result (run_text (run_for states (made (M.Memory.memory memory) (chain_state panel)))) }
{
    let replayed = replay(heap, memory, panel, &[Call::Run(states)]);
    if !replayed.log.complete {
        return Err(Unplotted::NoMemory);
    }
    // the log is one run, and its budget is accepted
    let ran = run_answer(replayed.log.answers.as_slice()).unwrap();
    let (cpu, window) = replayed.card.registers();
    listing(heap, ran, cpu, window, replayed.card.panel())
}

// The plot of an image that the bank has room for.
fn image_listing(heap: Global, image: &[u8]) -> Result<String, Unplotted>
    requires { length image.now ≤ 65536 }
    ensures { Lists result (image_text image.now) }
{
    let mut bytes = bank_bytes(heap, image)?;
    // 65,536 bytes are a bank
    let size = BoardLength::of_bank(bytes.as_slice()).unwrap();
    let panel = new_panel(heap)?;
    let bank = Bank::new(bytes.as_mut_slice(), size);
    run_listing(heap, bank, panel, STATES)
}

// What the program prints: the listing of what the card comes to with the image in its bank, or why there is none.
pub fn plot(heap: Global, image: &[u8]) -> Result<String, Unplotted>
    ensures { Plots result image.now }
{
    if image.len() > BYTES {
        return Err(Unplotted::TooLong);
    }
    image_listing(heap, image)
}
