// Words and numbers as text. The code reads them; how std prints numbers, in columns too, is defined in specs/ and proved in
// proofs/.
#![tactic(auto)]

pub mod decimal;
mod digits;
pub mod hex;
pub mod laws;
pub mod words;
