// A memory: a ROM-and-RAM board, a protect plug over it, and a patch plug over that.
ghost use Rattle.making.specs.Making.{handed_back, memory_made, seen};
ghost use Rattle.memory.specs.Boards.{rom_ram_memory};
ghost use Rattle.plugs.specs.Plugs.{patch_memory, protect_memory};
ghost use Rattle.std.specs.Prelude.{◌≡◌};

use denial::unmade::Unmade;
use memory::length::BoardLength;
use memory::rom_ram::RomRam;
use plugs::entry::{Page, PatchEntry};
use plugs::patch::Patch;
use plugs::protect::Protect;

pub type Plugged<'a> = Patch<Protect<RomRam<'a>>>;

// The memory over these bytes, or the denial of the first part that cannot be made: the board, the protect plug, the patch plug. A
// denial hands the loan back, with the bytes as they were.
pub fn memory<'a>(
    rom: &'a [u8],
    ram: &'a mut [u8],
    protect: &[Page],
    patch: &[PatchEntry],
) -> Result<Plugged<'a>, Unmade<&'a mut [u8]>>
    ensures { seen (patch_memory (protect_memory rom_ram_memory)) (λ r. r.now) result ≡ handed_back ram.old (memory_made rom.now ram.old protect.now patch.now) }
{
    let size = match BoardLength::of_rom_ram(rom, ram) {
        Ok(size) => size,
        Err(denial) => return Err(Unmade { denial, given: ram }),
    };
    let board = RomRam::new(rom, ram, size);
    // tried: map_err and `?`, behind which the borrow check covers no plug over a loan
    let protected = match Protect::new(board, protect) {
        Ok(protected) => protected,
        Err(Unmade { denial, given }) => {
            return Err(Unmade {
                denial,
                given: given.into_ram(),
            });
        }
    };
    match Patch::new(protected, patch) {
        Ok(patched) => Ok(patched),
        Err(Unmade { denial, given }) => {
            Err(Unmade {
                denial,
                given: given.into_below().into_ram(),
            })
        }
    }
}
