// Making a bank, what it does as a memory, and its end.
ghost use Rattle.std.specs.Prelude.{◌≡◌, ◌≤◌, length, min};
ghost use Rattle.denial.specs.Denials.{answered};
ghost use Rattle.memory.specs.Boards.{bank as bank_over, bank_memory, bank_run, bytes_of, cut};
ghost use Rattle.memory.specs.Memory.{accepted, store};

use crate::bank::Bank;
use crate::length::BoardLength;
use crate::{Memory, place};
use denial::Denial;

impl<'a> Bank<'a> {
    // The bank of that length over the lent bytes.
    pub fn new(bytes: &'a mut [u8], size: BoardLength) -> Bank<'a>
        ensures memory { bank_memory result ≡ cut (bytes_of size) (bank_over bytes.old) }
        ensures whole { length bytes.old ≤ bytes_of size → bank_memory result ≡ bank_over bytes.old }
        ensures bytes { result.bytes.now ≡ bytes.old }
        ensures size { result.length ≡ min (bytes_of size) (length bytes.old) }
        ensures loan { result.bytes.ghost_name ≡ bytes.entry.ghost_name }
    {
        let length = size.bytes().min(bytes.len());
        Bank { bytes, length }
    }

    // Ends the bank and hands the loan back, with the bytes that the bank held.
    pub fn into_bytes(self) -> &'a mut [u8]
        ensures memory { bank_memory self.entry ≡ cut self.entry.length (bank_over result.now) }
        ensures bytes { result.now ≡ self.entry.bytes.now }
        ensures loan { result.ghost_name ≡ self.entry.bytes.ghost_name }
    {
        let Bank { bytes, length: _ } = self;
        bytes
    }
}

impl<'a> Memory for Bank<'a> {
    ghost memory = { bank_memory };

    fn read(&self, at: u32) -> Result<u8, Denial> {
        let i = place(at)?;
        Ok(if i < self.length { self.bytes[i] } else { 0xFF })
    }

    // The bytes stay on the loan they came by, so that the lender knows them by the model.
    fn write(&mut self, at: u32, byte: u8) -> Result<(), Denial>
        ensures answer { answered result ≡ accepted at }
        ensures after { bank_memory self.new ≡ store (bank_memory self.old) at byte }
        ensures bytes { self.new.bytes.now ≡ bank_run self.old.length self.old.bytes.now at byte }
        ensures loan { self.new.bytes.ghost_name ≡ self.old.bytes.ghost_name }
    {
        let i = place(at)?;
        if i < self.length {
            self.bytes[i] = byte;
        }
        Ok(())
    }
}
