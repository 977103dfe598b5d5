// What a log is served on: one card, or two that are given the same calls.
use answers::call::Call;
use card::card::Card;
use card_log::progress::Progress;
use log_listing::listed::list;
use log_listing::listed_pair::list_pair;
use memory::Memory;
use std::alloc::{AllocError, Global};
use transcript::compared::compared_line;
use transcript::show::show;
use transcript::shown::Shown;

pub(crate) trait Cards {
    // Serves a piece of the log, with a line for each answer.
    fn list(
        &mut self,
        heap: Global,
        log: &[Call],
        progress: &mut Progress,
        text: &mut String,
    ) -> Result<(), AllocError>;

    // The cards as they stand, over boards of so many bytes.
    fn show(&self, text: &mut String, length: usize) -> Result<(), AllocError>;

    // What is said of the cards at the log's end, behind the pages opened.
    fn compare(&self, text: &mut String, progress: &Progress) -> Result<(), AllocError>;
}

#[derive(Drop)]
pub(crate) struct One<M, P>(pub(crate) Card<M, P>);

impl<M: Memory, P: Shown> Cards for One<M, P> {
    fn list(
        &mut self,
        heap: Global,
        log: &[Call],
        progress: &mut Progress,
        text: &mut String,
    ) -> Result<(), AllocError> {
        list(heap, &mut self.0, log, progress, text)
    }

    fn show(&self, text: &mut String, length: usize) -> Result<(), AllocError> {
        show(text, &self.0, length)
    }

    fn compare(&self, _text: &mut String, _progress: &Progress) -> Result<(), AllocError> {
        Ok(())
    }
}

#[derive(Drop)]
pub(crate) struct Two<M, N, P> {
    pub(crate) first: Card<M, P>,
    pub(crate) second: Card<N, P>,
}

impl<M: Memory, N: Memory, P: Shown> Cards for Two<M, N, P> {
    fn list(
        &mut self,
        heap: Global,
        log: &[Call],
        progress: &mut Progress,
        text: &mut String,
    ) -> Result<(), AllocError> {
        list_pair(heap, &mut self.first, &mut self.second, log, progress, text)
    }

    // The first card, then the second.
    fn show(&self, text: &mut String, length: usize) -> Result<(), AllocError> {
        show(text, &self.first, length)?;
        writeln!(text, "second")?;
        show(text, &self.second, length)
    }

    fn compare(&self, text: &mut String, progress: &Progress) -> Result<(), AllocError> {
        compared_line(text, progress.difference)
    }
}
