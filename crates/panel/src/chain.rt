// The chain panel: it records the writes of a plot as three chains in one table. The struct stands alone, so that
// definitions can cite it; its calls are in the modules below.
ghost use Rattle.std.specs.Prelude.{◌≡◌, ◌<◌, ◌≤◌, length};
ghost use Rattle.panel.specs.Chains.{used as count};
ghost use Rattle.panel.specs.Links.{Ends, Once, chains_in, firsts_of, lasts_of};

use crate::chain::span::Span;
use crate::record::Record;

mod host;
pub mod panel;
mod recording;
pub mod span;
mod view;
pub mod walk;

// Nothing is presumed of the bytes of the table that was handed over: record 0 and the records above `used` may hold
// anything.
#[derive(Drop)]
pub struct Chain {
    table: Vec<Record>,
    // one for each chain
    spans: [Span; 3],
    // how many records are used: these are 1, 2 and so on. It stands beside the table, since that is as long as the host made it, and
    // all of it goes back.
    used: u16,
    key: u8,
    latch: bool,
    ghost three: { length spans ≡ 3 },
    ghost size: { (2 ≤ length table.items) × (length table.items ≤ 4096) },
    ghost room: { used < length table.items },
    ghost total: { count (chains_in table.items (firsts_of spans)) ≡ used },
    ghost ends: { Ends (chains_in table.items (firsts_of spans)) (lasts_of spans) },
    ghost once: { Once (chains_in table.items (firsts_of spans)) used },
}
