// The protect plug: over any memory, it makes named pages take no writes.
ghost use Rattle.denial.specs.Denials.{answered};
ghost use Rattle.memory.specs.Memory.{accepted, store};
ghost use Rattle.plugs.specs.Places.{held};
ghost use Rattle.plugs.specs.Plugs.{below_written, protect_keeps, protect_memory};
ghost use Rattle.std.specs.Prelude.{◌≡◌};

use crate::entry::Page;
use crate::plug::Plug;
use denial::Denial;
use memory::{BEYOND, Memory};

pub type Protect<M> = Plug<Page, M>;

impl<M: Memory> Memory for Plug<Page, M> {
    ghost memory = { protect_memory M.Memory.memory };

    fn read(&self, at: u32) -> Result<u8, Denial> {
        self.below.read(at)
    }

    // The memory below is as it is found when the plug is taken off, so what becomes of it is said too.
    fn write(&mut self, at: u32, byte: u8) -> Result<(), Denial>
        ensures answer { answered result ≡ accepted at }
        ensures after { protect_memory M.Memory.memory self.new ≡ store (protect_memory M.Memory.memory self.old) at byte }
        ensures below { M.Memory.memory self.new.below ≡ below_written (protect_keeps self.old at) (M.Memory.memory self.old.below) at byte }
        ensures entries { held self.new.entries ≡ held self.old.entries }
    {
        // beyond memory it goes on to the memory below, which denies it
        if at < BEYOND && self.entries.find(at / 4096).is_some() {
            return Ok(());
        }
        self.below.write(at, byte)
    }
}
