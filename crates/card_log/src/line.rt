// One line of a log, ready to be served on a card.
ghost use Rattle.answers.specs.Answers.{answer_of, call_of};
ghost use Rattle.answers.specs.declared.answer.Answer.TheVariants.{Step};
ghost use Rattle.card.specs.Cards.{model};
ghost use Rattle.card_log.specs.Rooms.{room_for, seen_in, shown_in, sized};
ghost use Rattle.denial.specs.Denials.{answered_by};
ghost use Rattle.opened.specs.Opened.{by_call};
ghost use Rattle.opened.specs.Pages.{joined, pages_of};
ghost use Rattle.processor.specs.Log as log;
ghost use Rattle.processor.specs.Run as running;
ghost use Rattle.std.specs.Prelude.{◌≡◌, true, IfOk, IfSome, OnErr, is_some, vec_items, vec_len};

use crate::opening::Opening;
use answers::answer::Answer;
use answers::call::Call;
use card::card::Card;
use card::look::LONGEST;
use card::look_window::LookWindow;
use card::witness::Witness;
use denial::{Denial, Fault};
use machine::cost::Cost;
use memory::Memory;
use panel::Panel;
use registers::window::Window;
use std::alloc::{AllocError, Global};

// A call with room for the bytes of a look that will be accepted. It is got before the line is served, so that no line is half
// served; a look that will be denied needs none, so that want of memory never hides its denial.
#[derive(Drop)]
pub(crate) struct Line {
    call: Call,
    room: Option<Vec<u8>>,
    ghost fits: { sized vec_len room ≡ room_for (call_of call) },
}

impl Line {
    // Memory is wanted for nothing but the bytes of such a look.
    pub(crate) fn new(heap: Global, call: Call) -> Result<Line, AllocError>
        ensures line { IfOk result (λ l. l.call ≡ call) }
        ensures needed { OnErr result (is_some (room_for (call_of call)) ≡ true) }
    {
        let room = match call {
            Call::Look(window, _, length) if is_look(window, length) => {
                Some(vec![in heap; 0u8; length]?)
            }
            _ => None,
        };
        Ok(Line { call, room })
    }

    // The answer to the call, with the card as the call leaves it, and the pages that it opens put to the others.
    pub(crate) fn serve<M: Memory, P: Panel>(
        self,
        card: &mut Card<M, P>,
        opening: &mut Opening,
    ) -> Answer
        ensures answer { answer_of result ≡ (log.serve P.make (call_of self.call) (model M.memory P.state card.old)).answer }
        ensures card { model M.memory P.state card.new ≡ (log.serve P.make (call_of self.call) (model M.memory P.state card.old)).card }
        ensures opened { pages_of opening.new.pages ≡ joined (pages_of opening.old.pages) (by_call P.make (call_of self.call) (model M.memory P.state card.old)) }
    {
        let Line { call, room } = self;
        match call {
            Call::Step => Answer::Step(step(card, opening)),
            Call::Run(budget) => Answer::Run(card.run_witnessed(budget, opening)),
            Call::Reset => {
                card.reset();
                Answer::Reset
            }
            Call::Look(window, at, _) => Answer::Look(look(card, window, at, room, opening)),
        }
    }
}

// A step opens the pages that are mapped as it begins, unless it is denied.
fn step<M: Memory, P: Panel>(card: &mut Card<M, P>, opening: &mut Opening) -> Result<Cost, Fault>
    ensures answer { answer_of (Step result) ≡ (log.serve P.make log.stepping (model M.memory P.state card.old)).answer }
    ensures card { model M.memory P.state card.new ≡ (log.serve P.make log.stepping (model M.memory P.state card.old)).card }
    ensures opened { pages_of opening.new.pages ≡ joined (pages_of opening.old.pages) (by_call P.make log.stepping (model M.memory P.state card.old)) }
{
    let window = card.window();
    let cost = card.step()?;
    opening.note(window);
    Ok(cost)
}

// Whether a card will accept a look. No card is asked, since memory for the answer comes first.
fn is_look(window: Window, length: usize) -> bool
    ensures { result ≡ running.is_look window length }
{
    LookWindow::try_from(window).is_ok() && length <= LONGEST
}

// There is room for all of it, unless the look is denied.
fn look<M: Memory, P: Panel>(
    card: &mut Card<M, P>,
    window: Window,
    at: u16,
    room: Option<Vec<u8>>,
    opening: &mut Opening,
) -> Result<Vec<u8>, Denial>
    requires { IfSome room (λ v. running.is_look window (vec_len v) ≡ true) }
    ensures answer { answered_by vec_items result ≡ seen_in (λ v. running.looked (M.memory card.old.machine.memory).byte window at (vec_len v)) room }
    ensures card { card.new ≡ card.old }
    ensures opened { pages_of opening.new.pages ≡ joined (pages_of opening.old.pages) (shown_in room window) }
{
    let mut bytes = room.ok_or(Denial::LookOutOfRange)?;
    card.look(window, at, bytes.as_mut_slice())?;
    opening.note(window);
    Ok(bytes)
}
