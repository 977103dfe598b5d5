// What the card of a plot is made from: the bytes of its bank, and its panel.
ghost use Rattle.std.specs.Prelude.{◌≡◌, ◌≤◌, length, IfOk};
ghost use Rattle.panel.specs.Chains.{new_chain};
ghost use Rattle.panel.specs.Shown.{chain_state};
ghost use Rattle.plotting.specs.Plotting.{filled};

use panel::chain::Chain;
use panel::record::Record;
use std::alloc::{AllocError, Global};

// The bytes of the bank.
pub(crate) const BYTES: usize = 65_536;

// The records of the panel's table.
const RECORDS: usize = 64;

// The image with zeros behind it. The busy image is put so too, in busy: each program stands alone.
pub(crate) fn bank_bytes(heap: Global, image: &[u8]) -> Result<Vec<u8>, AllocError>
    requires { length image.now ≤ 65536 }
    ensures { IfOk result (λ v. v.items ≡ filled image.now) }
{
    let mut bytes = Vec::from_slice(heap, image)?;
    bytes.resize(BYTES, 0)?;
    Ok(bytes)
}

// A table of records that are all alike.
fn table(heap: Global) -> Result<Vec<Record>, AllocError>
    ensures { IfOk result (λ v. length v.items ≡ 64) }
{
    vec![in heap; Record::default(); RECORDS]
}

// A new panel over such a table.
pub(crate) fn new_panel(heap: Global) -> Result<Chain, AllocError>
    ensures { IfOk result (λ p. chain_state p ≡ new_chain 63) }
{
    // 64 records are a table
    Ok(Chain::new(table(heap)?).unwrap())
}
