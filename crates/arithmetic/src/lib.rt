// The processor's 8- and 16-bit operations. Each answers its value together with the flags that it leaves.
#![tactic(auto)]

pub mod add;
pub mod bits;
pub mod block;
pub mod carry;
pub mod decimal;
pub mod flags;
pub mod increment;
pub mod logic;
pub mod multiply;
pub mod operation;
pub mod port;
pub mod rotate;
mod sum;
pub mod wide;
