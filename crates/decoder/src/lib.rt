// What the opcode bytes of an instruction mean, page by page, read from the bytes alone.
#![tactic(auto)]

pub mod cb_page;
pub mod ed_page;
mod field;
pub mod indexed_cb_page;
pub mod indexed_page;
pub mod main_page;
pub mod page;
