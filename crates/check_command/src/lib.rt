// Tests of the lines of a script, on examples.
#![tactic(auto)]

#[cfg(test)]
mod lines;
