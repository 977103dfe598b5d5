// The groups of instructions. A form has one variant, with the registers that its opcode names; the bytes behind the
// opcode (n, mn, d and e) are no part of it. In comments IX stands for either index register.
pub mod bit;
pub mod block;
pub mod calculation;
pub mod call;
pub mod control;
pub mod exchange;
pub mod jump;
pub mod load;
pub mod port;
pub mod rotation;
