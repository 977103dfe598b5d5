// A piece of a log on one card.
ghost use Rattle.answers.specs.Answers.{call_of};
ghost use Rattle.card.specs.Cards.{model};
ghost use Rattle.card_log.specs.Replays.{reached};
ghost use Rattle.opened.specs.Opened.{opened};
ghost use Rattle.opened.specs.Pages.{joined, pages_of};
ghost use Rattle.std.specs.Prelude.{◌≡◌, ◌+◌, ◌-◌, ◌^◌, ◌++◌, length, map, min, string_bytes, OnErr, OnOk};
ghost use Rattle.transcript.specs.Answers.{answers_text};

use answers::call::Call;
use card::card::Card;
use card_log::progress::Progress;
use card_log::serve::serve;
use memory::Memory;
use panel::Panel;
use std::alloc::{AllocError, Global};
use transcript::answer::answer_lines;

// Serves a piece of a log and puts a line for each answer behind the text. If memory runs out, the text has no more lines than
// calls that were served, and the progress is as it was.
pub fn list<M: Memory, P: Panel>(
    heap: Global,
    card: &mut Card<M, P>,
    log: &[Call],
    progress: &mut Progress,
    text: &mut String,
) -> Result<(), AllocError>
    ensures text { OnOk result (string_bytes text.new ≡ string_bytes text.old ++ answers_text (reached P.make (map call_of log.now) (model M.memory P.state card.old)).answers) }
    ensures card { OnOk result (model M.memory P.state card.new ≡ (reached P.make (map call_of log.now) (model M.memory P.state card.old)).card) }
    ensures lines { OnOk result (progress.new.lines ≡ min (progress.old.lines + length log.now) (2 ^ 64 - 1)) }
    ensures opened { OnOk result (pages_of progress.new.opened ≡ joined (pages_of progress.old.opened) (opened P.make (map call_of log.now) (model M.memory P.state card.old))) }
    ensures difference { OnOk result (progress.new.difference ≡ progress.old.difference) }
    ensures stopped { OnErr result (progress.new ≡ progress.old) }
{
    let served = serve(heap, card, log);
    answer_lines(text, &served.answers)?;
    if !served.complete {
        return Err(AllocError);
    }
    progress.add(served.served, &served.opened, None);
    Ok(())
}
