// Plugs. A plug lies over any memory and alters what is seen of it; whatever it does not alter is as the memory below has
// it. Any pile of plugs over any memory is a memory again.
#![tactic(auto)]

pub mod entry;
pub mod patch;
pub mod plug;
pub mod protect;
mod table;
