// A memory as text: one CRC-32 over the bytes of its board, as they are read through its plugs.
ghost use Rattle.plot.specs.Lines.{line};
ghost use Rattle.std.specs.Prelude.{◌≡◌, ◌++◌, string_bytes, OnOk, Some};
ghost use Rattle.transcript.specs.Memory.{board_crc, crc_text, memory_text};

use card::card::Card;
use memory::{BEYOND, Memory};
use pagemap::crc::Checksum;
use std::alloc::AllocError;
use std::fmt;

// From the first number on that is no address there is nothing to be read.
fn crc<M: Memory, P>(card: &Card<M, P>, length: usize) -> u32
    ensures { result ≡ board_crc (M.memory card.now.machine.memory) length }
{
    let mut sum = Checksum::new();
    for at in 0..length.min(BEYOND as usize) as u32 {
        match card.read(at) {
            Ok(byte) => sum = sum.with(byte),
            Err(_) => unreachable!(),
        }
    }
    sum.value()
}

#[derive(Clone, Copy)]
struct CrcText(u32);

impl fmt::Display for CrcText {
    ghost output = { λ c. Some (crc_text c.0) };

    #[tactic(auto, using(text::proofs::Written::printed), unfolding(crate::specs::Memory::crc_text))]
    fn fmt<W: fmt::Write>(&self, f: &mut fmt::Formatter<W>) -> fmt::Result {
        let crc = self.0;
        write!(f, "memory crc={crc:08X}")
    }
}

pub fn memory_line<M: Memory, P>(
    text: &mut String,
    card: &Card<M, P>,
    length: usize,
) -> Result<(), AllocError>
    ensures { OnOk result (string_bytes text.new ≡ string_bytes text.old ++ line (memory_text (M.memory card.now.machine.memory) length)) }
{
    let crc = CrcText(crc(card, length));
    writeln!(text, "{crc}")
}
