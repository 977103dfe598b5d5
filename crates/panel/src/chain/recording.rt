// How the chain panel records a write: it takes a fresh record, then joins it to the end of a chain.
ghost use Rattle.panel.specs.Chains.{fresh_number, is_full, last_number, recorded};
ghost use Rattle.panel.specs.Links.{ending, named, row};
ghost use Rattle.panel.specs.Shown.{chain_state, table_of};
ghost use Rattle.panel.specs.Tracks.{track_number};
ghost use Rattle.std.specs.Prelude.{◌≡◌, false, Some, slice_set};

use crate::chain::Chain;
use crate::chain::span::Span;
use crate::record::Record;
use crate::track::Track;

impl Chain {
    // Takes the fresh record for a byte written to a port, and answers its number. It is on no chain yet.
    pub(super) fn take_fresh(&mut self, port: u16, byte: u8) -> u16
        requires { is_full (chain_state self.old) ≡ false }
        ensures number { result ≡ fresh_number (chain_state self.old) }
        ensures same { chain_state self.new ≡ chain_state self.old }
        ensures table { table_of self.new ≡ slice_set (table_of self.old) (fresh_number (chain_state self.old)) (ending port byte) }
    {
        let number = self.used + 1;
        self.table[number as usize] = Record {
            port,
            byte,
            next: 0,
        };
        number
    }

    // Joins the fresh record, which names no next, to the end of a chain.
    pub(super) fn join(&mut self, track: Track, number: u16)
        requires room { is_full (chain_state self.old) ≡ false }
        requires fresh { number ≡ fresh_number (chain_state self.old) }
        requires ended { (row (table_of self.old) number).next ≡ 0 }
        ensures after { chain_state self.new ≡ recorded (chain_state self.old) (Some track) (row (table_of self.old) number).port (row (table_of self.old) number).byte }
        ensures table { table_of self.new ≡ named (last_number 0 ((chain_state self.old).chain (track_number track))) number (table_of self.old) }
    {
        let chain = track.number();
        let Span { first, last } = self.spans[chain];
        if last == 0 {
            self.spans[chain] = Span {
                first: number,
                last: number,
            };
            self.used = number;
            return;
        }
        self.table[last as usize].next = number;
        self.spans[chain] = Span {
            first,
            last: number,
        };
        self.used = number;
    }
}
