// The host's part of the chain panel: it hands the table over and has it back, sets key byte and latch, and clears.
ghost use Rattle.std.specs.Prelude.{◌≡◌, ℕ, true, is_some, Some};
ghost use Rattle.panel.specs.Chains.{cleared, record_of, with_key, with_latch};
ghost use Rattle.panel.specs.Links.{row};
ghost use Rattle.panel.specs.Shown.{chain_state, made, making, table_of};

use crate::chain::Chain;
use crate::chain::span::Span;
use crate::record::Record;
use denial::Denial;
use denial::unmade::Unmade;

impl Chain {
    // A new panel over a table of 2 to 4,096 records, or 4 with the table handed back.
    pub fn new(table: Vec<Record>) -> Result<Chain, Unmade<Vec<Record>>>
        ensures { made result ≡ making table.items }
    {
        if !(2..=4096).contains(&table.len()) {
            return Err(Unmade {
                denial: Denial::TableLength,
                given: table,
            });
        }
        Ok(Chain {
            table,
            spans: [Span::EMPTY; 3],
            used: 0,
            key: 0,
            latch: false,
        })
    }

    // Takes the panel apart. The table has each used record at its number.
    pub fn into_table(self) -> Vec<Record>
        ensures table { result.items ≡ table_of self }
        ensures records { (n : ℕ) → is_some (record_of (chain_state self) n) ≡ true → record_of (chain_state self) n ≡ Some (row result.items n) }
    {
        let Chain {
            table,
            spans: _,
            used: _,
            key: _,
            latch: _,
        } = self;
        table
    }

    pub fn set_key(&mut self, key: u8)
        ensures after { chain_state self.new ≡ with_key key (chain_state self.old) }
        ensures table { table_of self.new ≡ table_of self.old }
    {
        self.key = key;
    }

    pub fn set_latch(&mut self, latch: bool)
        ensures after { chain_state self.new ≡ with_latch latch (chain_state self.old) }
        ensures table { table_of self.new ≡ table_of self.old }
    {
        self.latch = latch;
    }

    // Empties the chains. The table keeps its bytes, and the next write takes record 1 again.
    pub fn clear(&mut self)
        ensures after { chain_state self.new ≡ cleared (chain_state self.old) }
        ensures table { table_of self.new ≡ table_of self.old }
    {
        self.spans = [Span::EMPTY; 3];
        self.used = 0;
    }
}
