// Tests of the card and of logs, on examples.
#![tactic(auto)]

#[cfg(test)]
mod accesses;
#[cfg(test)]
mod cards;
#[cfg(test)]
mod faults;
#[cfg(test)]
mod logs;
#[cfg(test)]
mod looks;
#[cfg(test)]
mod pairs;
#[cfg(test)]
mod resets;
#[cfg(test)]
mod runs;
