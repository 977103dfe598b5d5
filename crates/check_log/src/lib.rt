// Tests of the pages that logs open, of logs that are served in pieces, and of calls that are repeated, on examples.
#![tactic(auto)]

#[cfg(test)]
mod boards;
#[cfg(test)]
mod in_pieces;
#[cfg(test)]
mod opened_pages;
#[cfg(test)]
mod repeated;
#[cfg(test)]
mod two_boards;
