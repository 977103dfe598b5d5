// The panels of one card or of two, as the host sets them before the log.
ghost use Rattle.making.specs.Making.{Makes, chain_made};
ghost use Rattle.panel.specs.Script.{new_script, script_state};
ghost use Rattle.panel.specs.Shown.{chain_state};
ghost use Rattle.std.specs.Prelude.{◌≡◌, IfOk};

use crate::unmade::Unmade;
use panel::chain::Chain;
use panel::record::Record;
use panel::script::Script;
use std::alloc::{AllocError, Global};

// Of a table that is too long no more is got than it takes to see that.
const TOO_MANY: u32 = 4097;

// The panel over a table of so many records, with its key byte and latch, or 4.
pub fn chain(heap: Global, records: u32, key: u8, latch: bool) -> Result<Chain, Unmade>
    ensures { Makes chain_state result (chain_made records key latch) }
{
    let table = vec![in heap; Record::default(); records.min(TOO_MANY) as usize]?;
    let mut panel = match Chain::new(table) {
        Ok(panel) => panel,
        Err(unmade) => return Err(Unmade::Denied(unmade.denial)),
    };
    panel.set_key(key);
    panel.set_latch(latch);
    Ok(panel)
}

// Two such panels, which are alike.
pub fn chains(heap: Global, records: u32, key: u8, latch: bool) -> Result<(Chain, Chain), Unmade>
    ensures first { Makes (λ p. chain_state p.0) result (chain_made records key latch) }
    ensures second { Makes (λ p. chain_state p.1) result (chain_made records key latch) }
{
    let first = chain(heap, records, key, latch)?;
    let second = chain(heap, records, key, latch)?;
    Ok((first, second))
}

// Two script panels, which are alike.
pub fn scripts(
    heap: Global,
    reads: &[u8],
    threshold: u32,
    int0_byte: u8,
) -> Result<(Script, Script), AllocError>
    ensures first { IfOk result (λ p. script_state p.0 ≡ new_script reads.now threshold int0_byte) }
    ensures second { IfOk result (λ p. script_state p.1 ≡ new_script reads.now threshold int0_byte) }
{
    let first = Vec::from_slice(heap, reads)?;
    let second = Vec::from_slice(heap, reads)?;
    Ok((
        Script::new(first, threshold, int0_byte),
        Script::new(second, threshold, int0_byte),
    ))
}
