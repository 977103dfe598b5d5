// The card: a processor with one memory and one panel, and what is called on it.
#![tactic(auto)]

mod calls;
pub mod card;
mod host;
pub mod look;
pub mod look_window;
mod looking;
pub mod ran;
pub mod witness;
