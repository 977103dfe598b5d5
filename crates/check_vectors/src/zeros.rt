// The bank that steps are made over: all its bytes are 00 between one step and the next.
use crate::outcome::Outcome;
use crate::trial::stepped;
use crate::vector::Vector;
use anyhow::anyhow;
use memory::bank::Bank;
use memory::length::BoardLength;
use std::alloc::Global;

// The highest cell of any vector is 27FFFH.
const BYTES: usize = 163_840;

#[derive(Drop)]
pub struct Zeros {
    bytes: Vec<u8>,
    size: BoardLength,
}

// Whether any byte is not 00. All are read, since so many together take less time than a test of each.
fn any(bytes: &[u8]) -> bool {
    bytes.iter().fold(0, |all, byte| all | *byte) != 0
}

impl Zeros {
    pub fn new(heap: Global) -> anyhow::Result<Zeros> {
        let bytes = vec![in heap; 0; BYTES]?;
        let size = BoardLength::of_bank(&bytes).map_err(|_| anyhow!("the bank is too long"))?;
        Ok(Zeros { bytes, size })
    }

    // What a step makes of a vector.
    pub fn outcome(&mut self, vector: &Vector) -> Outcome {
        let bytes = self.bytes.as_mut_slice();
        let outcome = stepped(Bank::new(bytes, self.size), vector);
        let astray = any(bytes);
        if astray {
            bytes.fill(0);
        }
        Outcome { astray, ..outcome }
    }
}
