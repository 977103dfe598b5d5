// The entries of a plug: up to 32, no two of them with one key.
ghost use Rattle.std.specs.Prelude.{◌≡◌, ◌<◌, ◌≤◌, ◌==◌, [], length, Some, None, Ok, Err, OnOk, OnErr, IfErr};
ghost use Rattle.std.specs.List.{list_all, position};
ghost use Rattle.denial.specs.Denials.{numbered, told};
ghost use Rattle.plugs.specs.Entries.{latest, plug_denial};
ghost use Rattle.plugs.specs.Places.{entry_of, held, placed};

use crate::entry::Entry;
use arrayvec::ArrayVec;
use denial::Denial;

// How many a plug has.
pub const PLACES: usize = 32;

#[derive(Drop)]
pub struct Table<E> {
    entries: ArrayVec<E, PLACES>,
}

fn all_in_range<E: Entry>(entries: &[E]) -> bool
    ensures { result ≡ list_all E.Entry.ranged entries.now }
{
    entries.iter().all(|e| e.in_range())
}

impl<E: Entry> Table<E> {
    // The entry of a key.
    pub fn find(&self, key: u32) -> Option<E>
        ensures { result ≡ entry_of E.Entry.key (held self.now) key }
    {
        self.entries.iter().find(|e| e.key() == key).copied()
    }

    // The place of a key.
    fn place(&self, key: u32) -> Option<usize>
        ensures { result ≡ position (λ e. E.Entry.key e == key) (held self.now) }
    {
        self.entries.iter().position(|e| e.key() == key)
    }

    // Puts an entry at the place of its key, or behind the others if its key is new, or denies a 33rd.
    fn put(&mut self, entry: E) -> Result<(), Denial>
        ensures ok { OnOk result (held self.new ≡ placed E.Entry.key entry (held self.old)) }
        ensures few { OnOk result (length (held self.new) ≤ 32) }
        ensures err { IfErr result (λ d. told d ≡ numbered 3) }
        ensures many { OnErr result (32 < length (placed E.Entry.key entry (held self.old))) }
    {
        if let Some(at) = self.place(entry.key()) {
            self.entries[at] = entry;
            return Ok(());
        }
        self.entries
            .try_push(entry)
            .map_err(|_| Denial::TooManyEntries)
    }

    // The table of a plug's entries: of two with one key the later. 2 for an entry out of range, before 3 for a 33rd
    // different one.
    pub fn of(entries: &[E]) -> Result<Table<E>, Denial>
        ensures { elim result [ Ok t ↦ (plug_denial E.Entry.key E.Entry.ranged entries.now ≡ None) × (entry_of E.Entry.key (held t) ≡ latest E.Entry.key entries.now) | Err d ↦ plug_denial E.Entry.key E.Entry.ranged entries.now ≡ Some (told d) ] }
    {
        if !all_in_range(entries) {
            return Err(Denial::EntryOutOfRange);
        }
        let mut table = Table {
            entries: ArrayVec::new(),
        };
        for e in entries {
            table.put(*e)?;
        }
        Ok(table)
    }
}
