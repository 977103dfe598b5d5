// Tests of the panels, on examples.
#![tactic(auto)]

#[cfg(test)]
mod chain;
#[cfg(test)]
mod script;
