// What of a memory image a window shows, page by page, as text.
#![tactic(auto)]

pub mod arguments;
pub mod crc;
mod head;
pub mod held;
mod image;
pub mod listing;
mod report;
pub mod unlisted;
