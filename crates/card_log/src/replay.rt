// The log of one card, from its making on.
ghost use Rattle.answers.specs.Answers.{call_of};
ghost use Rattle.card_log.specs.Replays.{Enough, Together, reached, so_far};
ghost use Rattle.memory.specs.Memory.{Mem};
ghost use Rattle.opened.specs.Opened.{opened};
ghost use Rattle.opened.specs.Pages.{pages_of};
ghost use Rattle.processor.specs.Log.{made};
ghost use Rattle.std.specs.Prelude.{◌≡◌, ◌<◌, true, false, map, length, take, vec_len};

use crate::serve::serve;
use crate::served::Replayed;
use answers::call::Call;
use card::card::Card;
use memory::Memory;
use panel::Panel;
use std::alloc::Global;

// Makes a card and serves a log on it, as far as memory for the answers goes.
pub fn replay<M: Memory, P: Panel>(
    heap: Global,
    memory: M,
    panel: P,
    log: &[Call],
) -> Replayed<M, P>
    ensures replayed { so_far M.memory P.state result.card result.log.answers.items ≡ reached P.make (map call_of (take result.log.served log.now)) (made (M.memory memory) (P.state panel)) }
    ensures opened { pages_of result.log.opened ≡ opened P.make (map call_of (take result.log.served log.now)) (made (M.memory memory) (P.state panel)) }
    ensures count { vec_len result.log.answers ≡ result.log.served }
    ensures whole { result.log.complete ≡ true → result.log.served ≡ length log.now }
    ensures cut_short { result.log.complete ≡ false → result.log.served < length log.now }
    ensures alone { (n : Mem) → Together P.make (map call_of (take result.log.served log.now)) (made (M.memory memory) (P.state panel)) (made n (P.state panel)) }
    ensures enough { (n : Mem) → Enough (pages_of result.log.opened) P.make (map call_of (take result.log.served log.now)) (made (M.memory memory) (P.state panel)) (made n (P.state panel)) }
{
    let mut card = Card::new(memory, panel);
    let log = serve(heap, &mut card, log);
    Replayed { card, log }
}
