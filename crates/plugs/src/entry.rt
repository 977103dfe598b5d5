// An entry of a plug: it names a page or an address by a number, its key.
ghost use Rattle.std.specs.Prelude.{◌≡◌, ℕ, Bool, Option};
ghost use Rattle.memory.specs.Memory.{Mem};
ghost use Rattle.plugs.specs.Plugs.{is_page, is_patch, page_key, patch_key, patched, protected};

use memory::BEYOND;

pub trait Entry: Copy + Default {
    ghost key: { Self → ℕ };

    ghost ranged: { Self → Bool };

    // The memory that entries, looked up by key, make of the one below.
    ghost altered: { (ℕ → Option Self) → Mem → Mem };

    fn key(&self) -> u32
        ensures { result ≡ key self.now };

    // Whether there is such a page or address.
    fn in_range(&self) -> bool
        ensures { result ≡ ranged self.now };
}

// A physical page that a protect plug names.
#[derive(Clone, Copy, Debug, Default)]
pub struct Page {
    pub number: u8,
}

impl Entry for Page {
    ghost key = { page_key };

    ghost ranged = { is_page };

    ghost altered = { protected };

    fn key(&self) -> u32 {
        u32::from(self.number)
    }

    fn in_range(&self) -> bool {
        self.number < 128
    }
}

// A physical address that a patch plug names, with the byte that it is to have.
#[derive(Clone, Copy, Debug, Default)]
pub struct PatchEntry {
    pub address: u32,
    pub byte: u8,
}

impl Entry for PatchEntry {
    ghost key = { patch_key };

    ghost ranged = { is_patch };

    ghost altered = { patched };

    fn key(&self) -> u32 {
        self.address
    }

    fn in_range(&self) -> bool {
        self.key() < BEYOND
    }
}
