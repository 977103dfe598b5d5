// A put: bytes that a line of a script lays into a board.
ghost use Rattle.script.specs.Puts.{fits, lie_within};
ghost use Rattle.script.specs.Shown.{what_of};
ghost use Rattle.std.specs.Prelude.{◌≡◌};

#[derive(Debug, Drop)]
pub enum What {
    Bytes(Vec<u8>),
    // one byte many times
    Fill { length: u32, byte: u8 },
    // the bytes of the file of this name
    Image(String),
}

#[derive(Debug, Drop)]
pub struct Put {
    // the line's number
    pub line: usize,
    // where in the board the first byte comes to stand
    pub at: u32,
    pub what: What,
}

// Whether so many bytes from an address on lie in a board of a length.
pub(crate) fn lie_within(board: u64, at: u32, bytes: u64) -> bool
    ensures { result ≡ lie_within board at bytes }
{
    bytes == 0
        || u64::from(at)
            .checked_add(bytes)
            .is_some_and(|end| end <= board)
}

impl Put {
    // Whether it lies in a board of a length, as far as is known before a file is read.
    pub(crate) fn fits(&self, board: u64) -> bool
        ensures { result ≡ fits board self.now.at (what_of self.now.what) }
    {
        match &self.what {
            What::Bytes(bytes) => lie_within(board, self.at, bytes.len() as u64),
            What::Fill { length, .. } => lie_within(board, self.at, u64::from(*length)),
            What::Image(_) => true,
        }
    }
}
