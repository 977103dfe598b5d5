// A ROM-and-RAM board: lent bytes for reading, then lent bytes for writing. Behind both it is as a bank is behind its end.
ghost use Rattle.denial.specs.Denials.{answered};
ghost use Rattle.memory.specs.Boards.{bytes_of, cut, ram_run, rom_ram, rom_ram_memory};
ghost use Rattle.memory.specs.Memory.{accepted, store};
ghost use Rattle.std.specs.Prelude.{◌≡◌, ◌+◌, ◌≤◌, length};

use crate::length::BoardLength;
use crate::{Memory, place};
use denial::Denial;

// The board ends at `length`, or where the lent bytes end.
#[derive(Drop)]
pub struct RomRam<'a> {
    rom: &'a [u8],
    ram: &'a mut [u8],
    // beside the bytes, since the board may end before they do, and all of them go back to the lender
    length: usize,
}

impl<'a> RomRam<'a> {
    // The board of that length over the lent bytes.
    pub fn new(rom: &'a [u8], ram: &'a mut [u8], size: BoardLength) -> RomRam<'a>
        ensures memory { rom_ram_memory result ≡ cut (bytes_of size) (rom_ram rom.now ram.old) }
        ensures whole { length rom.now + length ram.old ≤ bytes_of size → rom_ram_memory result ≡ rom_ram rom.now ram.old }
        ensures bytes { result.ram.now ≡ ram.old }
        ensures size { result.length ≡ bytes_of size }
        ensures loan { result.ram.ghost_name ≡ ram.entry.ghost_name }
    {
        RomRam {
            rom,
            ram,
            length: size.bytes(),
        }
    }

    // Ends the board and hands the loan of its RAM back, with the bytes that the board held.
    pub fn into_ram(self) -> &'a mut [u8]
        ensures memory { rom_ram_memory self.entry ≡ cut self.entry.length (rom_ram self.entry.rom.now result.now) }
        ensures bytes { result.now ≡ self.entry.ram.now }
        ensures loan { result.ghost_name ≡ self.entry.ram.ghost_name }
    {
        let RomRam {
            rom: _,
            ram,
            length: _,
        } = self;
        ram
    }
}

impl<'a> Memory for RomRam<'a> {
    ghost memory = { rom_ram_memory };

    fn read(&self, at: u32) -> Result<u8, Denial> {
        let i = place(at)?;
        if i >= self.length {
            return Ok(0xFF);
        }
        // a match for each part: by `unwrap_or(&0xFF)`, tried, a read takes 1.6 times as long
        if let Some(byte) = self.rom.get(i) {
            return Ok(*byte);
        }
        match self.ram.get(i - self.rom.len()) {
            Some(byte) => Ok(*byte),
            None => Ok(0xFF),
        }
    }

    // The bytes stay on the loan they came by, so that the lender knows them by the model.
    fn write(&mut self, at: u32, byte: u8) -> Result<(), Denial>
        ensures answer { answered result ≡ accepted at }
        ensures after { rom_ram_memory self.new ≡ store (rom_ram_memory self.old) at byte }
        ensures bytes { self.new.ram.now ≡ ram_run self.old at byte }
        ensures loan { self.new.ram.ghost_name ≡ self.old.ram.ghost_name }
    {
        let i = place(at)?;
        if i < self.length && i >= self.rom.len() {
            let i = i - self.rom.len();
            // tried: a slice's get_mut says nothing of what the slice ends as
            if i < self.ram.len() {
                self.ram[i] = byte;
            }
        }
        Ok(())
    }
}
