// The patch plug: over any memory, it gives named addresses a byte of their own, and they take no writes.
ghost use Rattle.denial.specs.Denials.{answered};
ghost use Rattle.memory.specs.Memory.{accepted, store};
ghost use Rattle.plugs.specs.Places.{held};
ghost use Rattle.plugs.specs.Plugs.{below_written, patch_keeps, patch_memory};
ghost use Rattle.std.specs.Prelude.{◌≡◌};

use crate::entry::PatchEntry;
use crate::plug::Plug;
use denial::Denial;
use memory::{BEYOND, Memory, place};

pub type Patch<M> = Plug<PatchEntry, M>;

impl<M: Memory> Memory for Plug<PatchEntry, M> {
    ghost memory = { patch_memory M.Memory.memory };

    fn read(&self, at: u32) -> Result<u8, Denial> {
        place(at)?;
        match self.entries.find(at) {
            Some(entry) => Ok(entry.byte),
            None => self.below.read(at),
        }
    }

    // The memory below is as it is found when the plug is taken off, so what becomes of it is said too.
    fn write(&mut self, at: u32, byte: u8) -> Result<(), Denial>
        ensures answer { answered result ≡ accepted at }
        ensures after { patch_memory M.Memory.memory self.new ≡ store (patch_memory M.Memory.memory self.old) at byte }
        ensures below { M.Memory.memory self.new.below ≡ below_written (patch_keeps self.old at) (M.Memory.memory self.old.below) at byte }
        ensures entries { held self.new.entries ≡ held self.old.entries }
    {
        // Beyond memory it goes on to the memory below, which denies it. The protect plug has the same in its own words, by the page:
        // one method for both would first have to say what entries make of a write.
        if at < BEYOND && self.entries.find(at).is_some() {
            return Ok(());
        }
        self.below.write(at, byte)
    }
}
