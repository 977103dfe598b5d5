// A call that is made many times, in pieces.
ghost use Rattle.answers.specs.Answers.{call_of};
ghost use Rattle.log_listing.specs.Pieces.{calls_of};
ghost use Rattle.std.specs.Prelude.{◌≡◌, ◌==◌, ◌++◌, map, min, vec_len, IfOk, OnErr};

use answers::call::Call;
use std::alloc::{AllocError, Global};

// The most calls that stand in memory at once, with their answers.
const MOST: u32 = 4096;

#[derive(Clone, Copy)]
pub struct Pieces {
    call: Call,
    // how many times it is still to be made
    left: u32,
}

impl Pieces {
    pub fn new(call: Call, times: u32) -> Pieces
        ensures { result ≡ record { call = call; left = times } }
    {
        Pieces { call, left: times }
    }

    pub fn is_empty(&self) -> bool
        ensures { result ≡ (self.now.left == 0) }
    {
        self.left == 0
    }

    // The next calls; there are some while any are left. If there is no memory for them, they are still to be made.
    pub fn next(&mut self, heap: Global) -> Result<Vec<Call>, AllocError>
        ensures calls { IfOk result (λ v. map call_of v.items ++ calls_of self.new ≡ calls_of self.old) }
        ensures some { IfOk result (λ v. vec_len v ≡ min self.old.left 4096) }
        ensures kept { OnErr result (self.new ≡ self.old) }
    {
        let count = self.left.min(MOST);
        let piece = vec![in heap; self.call; count as usize]?;
        self.left -= count;
        Ok(piece)
    }
}
