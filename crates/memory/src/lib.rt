// What a memory is, and the two boards at the bottom of one: a bank, and a ROM-and-RAM board.
#![tactic(auto)]

ghost use Rattle.denial.specs.Denials.{answered};
ghost use Rattle.memory.specs.Memory.{Mem, StoreLaws, accepted, fetched, placed_at, store};
ghost use Rattle.std.specs.Prelude.{◌≡◌};

use denial::Denial;

pub mod bank;
pub mod length;
pub mod rom_ram;

// The first number that is no physical address.
pub const BEYOND: u32 = 524_288;

// The place of a physical address in a run of bytes, or 5.
pub fn place(at: u32) -> Result<usize, Denial>
    ensures { answered result ≡ placed_at at }
{
    if at >= BEYOND {
        return Err(Denial::AddressBeyondMemory);
    }
    Ok(at as usize)
}

// A memory means, for each physical address, a byte and whether the address takes writes. Every make says by `memory`
// which memory its value is, and shows that reading and writing are those of the meaning.
pub trait Memory {
    ghost memory: { Self → Mem };

    // The byte at an address, or 5.
    fn read(&self, at: u32) -> Result<u8, Denial>
        ensures { answered result ≡ fetched (memory self.now) at };

    // Puts a byte at one address if it takes writes, and else does nothing; or 5.
    fn write(&mut self, at: u32, byte: u8) -> Result<(), Denial>
        ensures answer { answered result ≡ accepted at }
        ensures after { memory self.new ≡ store (memory self.old) at byte };
}

// Names the laws of a write, so that they are proved; it does nothing.
#[tactic(auto, using(crate::proofs::Stores::laws))]
pub fn store_laws()
    ensures { StoreLaws }
{}
