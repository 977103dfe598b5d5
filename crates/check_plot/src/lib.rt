// Tests of the listing of a plot, on examples.
#![tactic(auto)]

#[cfg(test)]
mod listing;
