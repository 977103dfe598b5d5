// How a host looks through another window, and that the card is as it was once the look has ended.
#![tactic(auto)]

ghost use Rattle.card.specs.Cards.{model, seen};
ghost use Rattle.card.specs.Looks.{filled, filling};
ghost use Rattle.denial.specs.Denials.{answered};
ghost use Rattle.processor.specs.Step as stepping;
ghost use Rattle.std.specs.Prelude.{◌≡◌, length};

use card::card::Card;
use card::look_window::LookWindow;
use denial::{Denial, Fault};
use machine::cost::Cost;
use memory::Memory;
use panel::Panel;

// The look is ended by a call.
pub fn ended<M: Memory, P>(
    card: &mut Card<M, P>,
    window: LookWindow,
    at: u16,
    buffer: &mut [u8],
) -> Result<(), Denial>
    ensures answer { answered result ≡ filling (length buffer.old) }
    ensures buffer { buffer.new ≡ filled (M.memory card.old.machine.memory).byte window.window at buffer.old }
    ensures card { card.new ≡ card.old }
{
    let look = card.open(window);
    let answer = look.fill(at, buffer);
    look.end();
    answer
}

// The look is let go where its scope ends.
pub fn let_go<M: Memory, P>(
    card: &mut Card<M, P>,
    window: LookWindow,
    at: u16,
    buffer: &mut [u8],
) -> Result<(), Denial>
    ensures answer { answered result ≡ filling (length buffer.old) }
    ensures buffer { buffer.new ≡ filled (M.memory card.old.machine.memory).byte window.window at buffer.old }
    ensures card { card.new ≡ card.old }
{
    let look = card.open(window);
    look.fill(at, buffer)
}

// Once a look has ended the card steps as if there had been none.
pub fn ended_then_stepped<M: Memory, P: Panel>(
    card: &mut Card<M, P>,
    window: LookWindow,
    at: u16,
    buffer: &mut [u8],
) -> (Result<(), Denial>, Result<Cost, Fault>)
    ensures answer { answered result.0 ≡ filling (length buffer.old) }
    ensures buffer { buffer.new ≡ filled (M.memory card.old.machine.memory).byte window.window at buffer.old }
    ensures turn { seen M.memory P.state result.1 card.new ≡ stepping.step P.make (model M.memory P.state card.old) }
{
    let look = card.open(window);
    let answer = look.fill(at, buffer);
    look.end();
    let turn = card.step();
    (answer, turn)
}

// Once a look has ended another one opens, and sees the same memory.
pub fn ended_then_opened<M: Memory, P>(
    card: &mut Card<M, P>,
    windows: (LookWindow, LookWindow),
    at: u16,
    first: &mut [u8],
    second: &mut [u8],
) -> (Result<(), Denial>, Result<(), Denial>)
    ensures answers { (answered result.0 ≡ filling (length first.old)) × (answered result.1 ≡ filling (length second.old)) }
    ensures first { first.new ≡ filled (M.memory card.old.machine.memory).byte windows.0.window at first.old }
    ensures second { second.new ≡ filled (M.memory card.old.machine.memory).byte windows.1.window at second.old }
    ensures card { card.new ≡ card.old }
{
    let look = card.open(windows.0);
    let answer = look.fill(at, first);
    look.end();
    let next = card.open(windows.1);
    let other = next.fill(at, second);
    next.end();
    (answer, other)
}
