// What a call of a log answers.
use card::ran::Ran;
use denial::{Denial, Fault};
use machine::cost::Cost;

#[derive(Debug, Drop, PartialEq, Eq)]
pub enum Answer {
    Step(Result<Cost, Fault>),
    Run(Result<Ran, Denial>),
    Reset,
    // with the bytes that it saw
    Look(Result<Vec<u8>, Denial>),
}
