// How many bytes a board has. It is checked before bytes are lent, since an answer that may be a denial cannot hand a
// loan on with what becomes of it.
ghost use Rattle.std.specs.Prelude.{◌≡◌, ◌+◌, ◌≤◌, length};
ghost use Rattle.denial.specs.Denials.{answered_by};
ghost use Rattle.memory.specs.Boards.{board_length, bytes_of};

use denial::Denial;

#[derive(Clone, Copy, Debug)]
pub struct BoardLength {
    bytes: usize,
}

impl BoardLength {
    pub const LONGEST: usize = 524_288;

    // The length of a bank over these bytes, or 1; they are as they were.
    pub fn of_bank(bytes: &[u8]) -> Result<BoardLength, Denial>
        ensures answer { answered_by bytes_of result ≡ board_length (length bytes.now) }
        ensures same { bytes.exit.now ≡ bytes.entry.now }
    {
        Self::checked(bytes.len(), 0)
    }

    // The length of a ROM-and-RAM board over these bytes, both counted, or 1; they are as they were.
    pub fn of_rom_ram(rom: &[u8], ram: &[u8]) -> Result<BoardLength, Denial>
        ensures answer { answered_by bytes_of result ≡ board_length (length rom.now + length ram.now) }
        ensures same { (rom.exit.now ≡ rom.entry.now) × (ram.exit.now ≡ ram.entry.now) }
    {
        Self::checked(rom.len(), ram.len())
    }

    fn checked(first: usize, second: usize) -> Result<BoardLength, Denial>
        ensures { answered_by bytes_of result ≡ board_length (first + second) }
    {
        match first.checked_add(second) {
            Some(bytes) if bytes <= Self::LONGEST => Ok(BoardLength { bytes }),
            _ => Err(Denial::MemoryTooLong),
        }
    }

    pub fn bytes(self) -> usize
        ensures { result ≡ bytes_of self }
    {
        self.bytes
    }
}
