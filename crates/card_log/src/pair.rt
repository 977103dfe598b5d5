// The same log on two cards, also from their making on.
ghost use Rattle.answers.specs.Answers.{answer_of, call_of};
ghost use Rattle.card.specs.Cards.{model};
ghost use Rattle.card_log.specs.Replays.{Enough, FirstDifference, Together, reached, so_far};
ghost use Rattle.opened.specs.Opened.{opened};
ghost use Rattle.opened.specs.Pages.{none, pages_of};
ghost use Rattle.processor.specs.Log.{made};
ghost use Rattle.std.specs.Prelude.{◌≡◌, ◌<◌, [], true, false, map, length, take, OnErr, OnOk, vec_len};

use crate::difference::first_difference;
use crate::served::{ReplayedPair, ServedPair};
use crate::session::Session;
use answers::call::Call;
use card::card::Card;
use memory::Memory;
use panel::Panel;
use std::alloc::{AllocError, Global};

// Serves the lines of a log on both cards, where nothing was answered yet, as far as memory for the answers of both goes.
fn serve_both<M: Memory, N: Memory, P: Panel>(
    heap: Global,
    one: &mut Session,
    first: &mut Card<M, P>,
    two: &mut Session,
    second: &mut Card<N, P>,
    log: &[Call],
) -> Result<(), AllocError>
    requires one { one.old.answers.items ≡ [] }
    requires two { two.old.answers.items ≡ [] }
    requires opened { pages_of one.old.opening.pages ≡ none }
    ensures first { so_far M.memory P.state first.new one.new.answers.items ≡ reached P.make (map call_of (take (vec_len one.new.answers) log.now)) (model M.memory P.state first.old) }
    ensures second { so_far N.memory P.state second.new two.new.answers.items ≡ reached P.make (map call_of (take (vec_len one.new.answers) log.now)) (model N.memory P.state second.old) }
    ensures opened { pages_of one.new.opening.pages ≡ opened P.make (map call_of (take (vec_len one.new.answers) log.now)) (model M.memory P.state first.old) }
    ensures even { vec_len one.new.answers ≡ vec_len two.new.answers }
    ensures whole { OnOk result (vec_len one.new.answers ≡ length log.now) }
    ensures cut_short { OnErr result (vec_len one.new.answers < length log.now) }
{
    for call in log {
        // all the memory of a line is got before it is served on either
        let line = one.ready(heap, *call)?;
        let other = two.ready(heap, *call)?;
        one.keep(first, line);
        two.keep(second, other);
    }
    Ok(())
}

// Serves the same log on two cards, whose memories may be of different makes, as far as memory for the answers goes. Isolation is
// said of them: pages that the window never opens on neither feel the processor nor sway it.
pub fn serve_pair<M: Memory, N: Memory, P: Panel>(
    heap: Global,
    first: &mut Card<M, P>,
    second: &mut Card<N, P>,
    log: &[Call],
) -> ServedPair
    ensures first { so_far M.memory P.state first.new result.answers.items ≡ reached P.make (map call_of (take result.served log.now)) (model M.memory P.state first.old) }
    ensures second { so_far N.memory P.state second.new result.others.items ≡ reached P.make (map call_of (take result.served log.now)) (model N.memory P.state second.old) }
    ensures opened { pages_of result.opened ≡ opened P.make (map call_of (take result.served log.now)) (model M.memory P.state first.old) }
    ensures difference { FirstDifference (map answer_of result.answers.items) (map answer_of result.others.items) result.difference }
    ensures count { (vec_len result.answers ≡ result.served) × (vec_len result.others ≡ result.served) }
    ensures whole { result.complete ≡ true → result.served ≡ length log.now }
    ensures cut_short { result.complete ≡ false → result.served < length log.now }
    ensures together { Together P.make (map call_of (take result.served log.now)) (model M.memory P.state first.old) (model N.memory P.state second.old) }
    ensures enough { Enough (pages_of result.opened) P.make (map call_of (take result.served log.now)) (model M.memory P.state first.old) (model N.memory P.state second.old) }
{
    let mut one = Session::new(heap);
    let mut two = Session::new(heap);
    let complete = serve_both(heap, &mut one, first, &mut two, second, log).is_ok();
    let difference = first_difference(&one.answers, &two.answers);
    let served = one.answers.len();
    let Session { answers, opening } = one;
    ServedPair {
        answers,
        others: two.answers,
        opened: opening.pages(),
        served,
        difference,
        complete,
    }
}

// Makes two cards and serves the same log on both.
pub fn replay_pair<M: Memory, N: Memory, P: Panel>(
    heap: Global,
    first: M,
    second: N,
    panel: P,
    other: P,
    log: &[Call],
) -> ReplayedPair<M, N, P>
    ensures first { so_far M.memory P.state result.first result.log.answers.items ≡ reached P.make (map call_of (take result.log.served log.now)) (made (M.memory first) (P.state panel)) }
    ensures second { so_far N.memory P.state result.second result.log.others.items ≡ reached P.make (map call_of (take result.log.served log.now)) (made (N.memory second) (P.state other)) }
    ensures opened { pages_of result.log.opened ≡ opened P.make (map call_of (take result.log.served log.now)) (made (M.memory first) (P.state panel)) }
    ensures difference { FirstDifference (map answer_of result.log.answers.items) (map answer_of result.log.others.items) result.log.difference }
    ensures count { (vec_len result.log.answers ≡ result.log.served) × (vec_len result.log.others ≡ result.log.served) }
    ensures whole { result.log.complete ≡ true → result.log.served ≡ length log.now }
    ensures cut_short { result.log.complete ≡ false → result.log.served < length log.now }
    ensures together { Together P.make (map call_of (take result.log.served log.now)) (made (M.memory first) (P.state panel)) (made (N.memory second) (P.state other)) }
    ensures enough { Enough (pages_of result.log.opened) P.make (map call_of (take result.log.served log.now)) (made (M.memory first) (P.state panel)) (made (N.memory second) (P.state other)) }
{
    let mut first = Card::new(first, panel);
    let mut second = Card::new(second, other);
    let log = serve_pair(heap, &mut first, &mut second, log);
    ReplayedPair { first, second, log }
}
