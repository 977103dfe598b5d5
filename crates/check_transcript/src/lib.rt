// Tests of what a log prints, on examples.
#![tactic(auto)]

#[cfg(test)]
mod lines;
#[cfg(test)]
mod shows;
