// Tests of the step on examples, over a panel made for them.
#![tactic(auto)]

#[cfg(test)]
mod card;
#[cfg(test)]
mod denials;
#[cfg(test)]
mod interrupts;
#[cfg(test)]
mod masks;
#[cfg(test)]
mod nesting;
#[cfg(test)]
mod places;
#[cfg(test)]
mod ports;
pub mod probe;
#[cfg(test)]
mod scene;
#[cfg(test)]
mod traps;
#[cfg(test)]
mod waking;
