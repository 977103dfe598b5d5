// The calls that a log holds, and what they answer.
#![tactic(auto)]

pub mod answer;
pub mod call;
pub mod same;
