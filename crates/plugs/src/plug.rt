// A plug of either kind: entries that name what it alters, over any memory.
ghost use Rattle.plugs.specs.Entries.{latest, plug_denial};
ghost use Rattle.plugs.specs.Plugs.{MakingLaws, is_page, is_patch, made, page_key, patch_key, patched, plug_memory, plugged, protected};
ghost use Rattle.std.specs.Prelude.{◌≡◌, IfOk};

use crate::entry::{Entry, Page, PatchEntry};
use crate::table::Table;
use denial::unmade::Unmade;
use memory::Memory;

// A plug lies over a memory and alters what is seen of it. Its entries are fixed when it is made.
#[derive(Drop)]
pub struct Plug<E, M> {
    pub(crate) below: M,
    pub(crate) entries: Table<E>,
}

impl<E: Entry, M: Memory> Plug<E, M> {
    // The plug with these entries over the memory below, or 2 or 3 with that memory handed back.
    pub fn new(below: M, entries: &[E]) -> Result<Plug<E, M>, Unmade<M>>
        ensures answer { made (plug_memory E.Entry.key E.Entry.altered M.Memory.memory) result ≡ plugged (plug_denial E.Entry.key E.Entry.ranged entries.now) (E.Entry.altered (latest E.Entry.key entries.now) (M.Memory.memory below)) below }
        ensures below { IfOk result (λ p. p.below ≡ below) }
    {
        match Table::of(entries) {
            Ok(entries) => Ok(Plug { below, entries }),
            Err(denial) => Err(Unmade {
                denial,
                given: below,
            }),
        }
    }

    // Takes the plug off.
    pub fn into_below(self) -> M
        ensures { result ≡ self.below }
    {
        let Plug { below, entries: _ } = self;
        below
    }
}

// Names what a plug of either kind is by its own words, so that it is proved; it does nothing.
pub fn making_laws()
    ensures laws { MakingLaws }
    ensures protects { ⟦<Page as Entry>⟧.altered ≡ protected }
    ensures pages { (⟦<Page as Entry>⟧.key ≡ page_key) × (⟦<Page as Entry>⟧.ranged ≡ is_page) }
    ensures patches { ⟦<PatchEntry as Entry>⟧.altered ≡ patched }
    ensures addresses { (⟦<PatchEntry as Entry>⟧.key ≡ patch_key) × (⟦<PatchEntry as Entry>⟧.ranged ≡ is_patch) }
{}
