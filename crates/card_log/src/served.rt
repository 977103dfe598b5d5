// What serving a log hands back. docs/CARD.md asks for the answers of each card, the pages opened, the lines served and whether
// memory ran out, so these are fields; and a log that memory cut short is no error: its answers so far stand.
use answers::answer::Answer;
use card::card::Card;
use opened::pages::Pages;

// Of one card.
#[derive(Drop)]
pub struct Served {
    pub answers: Vec<Answer>,
    // the physical pages that the lines served have opened
    pub opened: Pages,
    // the lines that were served
    pub served: usize,
    // whether they are the whole log: memory did not run out
    pub complete: bool,
}

// Of two cards that were given the same log.
#[derive(Drop)]
pub struct ServedPair {
    pub answers: Vec<Answer>,
    pub others: Vec<Answer>,
    // the physical pages that they have opened on the first card
    pub opened: Pages,
    // the lines that were served on both
    pub served: usize,
    // the first of them at which the answers differ
    pub difference: Option<usize>,
    pub complete: bool,
}

// A log from the making of its card on, with the card as the log leaves it.
#[derive(Drop)]
pub struct Replayed<M, P> {
    pub card: Card<M, P>,
    pub log: Served,
}

#[derive(Drop)]
pub struct ReplayedPair<M, N, P> {
    pub first: Card<M, P>,
    pub second: Card<N, P>,
    pub log: ServedPair,
}
