// A piece of a log on two cards.
ghost use Rattle.answers.specs.Answers.{call_of};
ghost use Rattle.card.specs.Cards.{model};
ghost use Rattle.card_log.specs.Joining.{first_of};
ghost use Rattle.card_log.specs.Replays.{FirstDifference, reached};
ghost use Rattle.log_listing.specs.Pairs.{Compared};
ghost use Rattle.opened.specs.Opened.{opened};
ghost use Rattle.opened.specs.Pages.{joined, pages_of};
ghost use Rattle.std.specs.Prelude.{◌≡◌, ◌+◌, ◌-◌, ◌^◌, ◌++◌, length, map, min, string_bytes, OnErr, OnOk};
ghost use Rattle.transcript.specs.Answers.{answers_text};

use answers::call::Call;
use card::card::Card;
use card_log::pair::serve_pair;
use card_log::progress::Progress;
use memory::Memory;
use panel::Panel;
use std::alloc::{AllocError, Global};
use transcript::answer::answer_lines;

// Serves a piece of a log on both cards, and puts a line for each answer of the first behind the text. If memory runs out, the text
// has no more lines than calls that were served, and the progress is as it was.
pub fn list_pair<M: Memory, N: Memory, P: Panel>(
    heap: Global,
    first: &mut Card<M, P>,
    second: &mut Card<N, P>,
    log: &[Call],
    progress: &mut Progress,
    text: &mut String,
) -> Result<(), AllocError>
    ensures text { OnOk result (string_bytes text.new ≡ string_bytes text.old ++ answers_text (reached P.make (map call_of log.now) (model M.memory P.state first.old)).answers) }
    ensures first { OnOk result (model M.memory P.state first.new ≡ (reached P.make (map call_of log.now) (model M.memory P.state first.old)).card) }
    ensures second { OnOk result (model N.memory P.state second.new ≡ (reached P.make (map call_of log.now) (model N.memory P.state second.old)).card) }
    ensures lines { OnOk result (progress.new.lines ≡ min (progress.old.lines + length log.now) (2 ^ 64 - 1)) }
    ensures opened { OnOk result (pages_of progress.new.opened ≡ joined (pages_of progress.old.opened) (opened P.make (map call_of log.now) (model M.memory P.state first.old))) }
    ensures difference { OnOk result (Compared (reached P.make (map call_of log.now) (model M.memory P.state first.old)).answers (reached P.make (map call_of log.now) (model N.memory P.state second.old)).answers progress.old.difference progress.old.lines progress.new.difference) }
    ensures stopped { OnErr result (progress.new ≡ progress.old) }
{
    let served = serve_pair(heap, first, second, log);
    answer_lines(text, &served.answers)?;
    if !served.complete {
        return Err(AllocError);
    }
    progress.add(served.served, &served.opened, served.difference);
    Ok(())
}
