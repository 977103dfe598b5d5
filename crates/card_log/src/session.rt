// The answers that a card gave so far, and the pages that it opened.
ghost use Rattle.answers.specs.Answers.{call_of};
ghost use Rattle.card.specs.Cards.{model};
ghost use Rattle.card_log.specs.Replays.{more, reached, so_far};
ghost use Rattle.opened.specs.Opened.{by_call, opened};
ghost use Rattle.opened.specs.Pages.{joined, none, pages_of};
ghost use Rattle.std.specs.Prelude.{◌≡◌, ◌+◌, ◌<◌, [], IfOk, OnErr, OnOk, length, map, take, vec_len, vec_capacity};

use crate::line::Line;
use crate::opening::Opening;
use answers::answer::Answer;
use answers::call::Call;
use card::card::Card;
use memory::Memory;
use panel::Panel;
use std::alloc::{AllocError, Global};

#[derive(Drop)]
pub(crate) struct Session {
    pub(crate) answers: Vec<Answer>,
    pub(crate) opening: Opening,
}

impl Session {
    pub(crate) fn new(heap: Global) -> Session
        ensures answers { result.answers.items ≡ [] }
        ensures opened { pages_of result.opening.pages ≡ none }
    {
        Session {
            answers: Vec::new(heap),
            opening: Opening::new(),
        }
    }

    // A line, with room for its answer.
    pub(crate) fn ready(&mut self, heap: Global, call: Call) -> Result<Line, AllocError>
        ensures answers { self.new.answers.items ≡ self.old.answers.items }
        ensures opening { self.new.opening ≡ self.old.opening }
        ensures len { vec_len self.new.answers ≡ vec_len self.old.answers }
        ensures line { IfOk result (λ l. l.call ≡ call) }
        ensures room { OnOk result (vec_len self.new.answers < vec_capacity self.new.answers) }
    {
        self.answers.reserve(1)?;
        Line::new(heap, call)
    }

    // Serves a line and keeps its answer, for which there is room.
    pub(crate) fn keep<M: Memory, P: Panel>(&mut self, card: &mut Card<M, P>, line: Line)
        requires { vec_len self.old.answers < vec_capacity self.old.answers }
        ensures so_far { so_far M.memory P.state card.new self.new.answers.items ≡ more P.make (call_of line.call) (so_far M.memory P.state card.old self.old.answers.items) }
        ensures opened { pages_of self.new.opening.pages ≡ joined (pages_of self.old.opening.pages) (by_call P.make (call_of line.call) (model M.memory P.state card.old)) }
        ensures len { vec_len self.new.answers ≡ vec_len self.old.answers + 1 }
    {
        let answer = line.serve(card, &mut self.opening);
        self.answers.push(answer).unwrap();
    }

    // Serves the lines of a log, where nothing was answered yet, as far as memory for the answers goes.
    pub(crate) fn serve<M: Memory, P: Panel>(
        &mut self,
        heap: Global,
        card: &mut Card<M, P>,
        log: &[Call],
    ) -> Result<(), AllocError>
        requires answers { self.old.answers.items ≡ [] }
        requires opened { pages_of self.old.opening.pages ≡ none }
        ensures so_far { so_far M.memory P.state card.new self.new.answers.items ≡ reached P.make (map call_of (take (vec_len self.new.answers) log.now)) (model M.memory P.state card.old) }
        ensures opened { pages_of self.new.opening.pages ≡ opened P.make (map call_of (take (vec_len self.new.answers) log.now)) (model M.memory P.state card.old) }
        ensures whole { OnOk result (vec_len self.new.answers ≡ length log.now) }
        ensures cut_short { OnErr result (vec_len self.new.answers < length log.now) }
    {
        for call in log {
            let line = self.ready(heap, *call)?;
            self.keep(card, line);
        }
        Ok(())
    }
}
