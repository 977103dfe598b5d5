// A log served on a card.
ghost use Rattle.answers.specs.Answers.{call_of};
ghost use Rattle.card.specs.Cards.{model};
ghost use Rattle.card_log.specs.Replays.{Enough, Together, reached, so_far};
ghost use Rattle.opened.specs.Opened.{opened};
ghost use Rattle.opened.specs.Pages.{pages_of};
ghost use Rattle.processor.specs.Step.{Model};
ghost use Rattle.std.specs.Prelude.{◌≡◌, ◌<◌, true, false, map, length, take, vec_len};

use crate::served::Served;
use crate::session::Session;
use answers::call::Call;
use card::card::Card;
use memory::Memory;
use panel::Panel;
use std::alloc::Global;

// Serves a log on a card, as far as memory for the answers goes. Isolation is said of it and of every other card.
pub fn serve<M: Memory, P: Panel>(heap: Global, card: &mut Card<M, P>, log: &[Call]) -> Served
    ensures served { so_far M.memory P.state card.new result.answers.items ≡ reached P.make (map call_of (take result.served log.now)) (model M.memory P.state card.old) }
    ensures opened { pages_of result.opened ≡ opened P.make (map call_of (take result.served log.now)) (model M.memory P.state card.old) }
    ensures count { vec_len result.answers ≡ result.served }
    ensures whole { result.complete ≡ true → result.served ≡ length log.now }
    ensures cut_short { result.complete ≡ false → result.served < length log.now }
    ensures alone { (d : Model P.State) → Together P.make (map call_of (take result.served log.now)) (model M.memory P.state card.old) d }
    ensures enough { (d : Model P.State) → Enough (pages_of result.opened) P.make (map call_of (take result.served log.now)) (model M.memory P.state card.old) d }
{
    let mut session = Session::new(heap);
    let complete = session.serve(heap, card, log).is_ok();
    let Session { answers, opening } = session;
    let served = answers.len();
    Served {
        answers,
        opened: opening.pages(),
        served,
        complete,
    }
}
