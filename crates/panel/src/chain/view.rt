// What the host sees of the chain panel: its chains and records, how many are used, key byte and latch.
ghost use Rattle.panel.specs.Chains.{first_number, record_of, used as count};
ghost use Rattle.panel.specs.Shown.{chain_state};
ghost use Rattle.panel.specs.Tracks.{track_number};
ghost use Rattle.panel.specs.Walking.{left_to_walk, listed};
ghost use Rattle.std.specs.Prelude.{◌≡◌};

use crate::chain::Chain;
use crate::chain::walk::Walk;
use crate::record::Record;
use crate::track::Track;

impl Chain {
    // The number of a chain's first record, or 0, which is no record's: no Option, so that a chain begins as a record goes on.
    pub fn first(&self, track: Track) -> u16
        ensures { result ≡ first_number ((chain_state self.now).chain (track_number track)) }
    {
        self.spans[track.number()].first
    }

    // A used record by its number.
    pub fn record(&self, number: u16) -> Option<Record>
        ensures { result ≡ record_of (chain_state self.now) number }
    {
        if !(1..=self.used).contains(&number) {
            return None;
        }
        Some(self.table[number as usize])
    }

    // Walks a chain from its first record to its last.
    pub fn walk(&self, track: Track) -> Walk<'_>
        ensures { left_to_walk result ≡ listed ((chain_state self.now).chain (track_number track)) }
    {
        Walk {
            panel: self,
            number: self.first(track),
            most: self.used,
        }
    }

    // How many records are used.
    pub fn used(&self) -> u16
        ensures { result ≡ count (chain_state self.now).chain }
    {
        self.used
    }

    // How many records can be used: all but record 0.
    pub fn usable(&self) -> u16
        ensures { result ≡ (chain_state self.now).usable }
    {
        (self.table.len() - 1) as u16
    }

    pub fn key(&self) -> u8
        ensures { result ≡ (chain_state self.now).key }
    {
        self.key
    }

    // Whether the stop latch is set.
    pub fn latch(&self) -> bool
        ensures { result ≡ (chain_state self.now).latch }
    {
        self.latch
    }
}
