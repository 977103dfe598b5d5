// cardmap [CBAR CBR BBR]: prints what the window shows of the memory image on standard input.
#![tactic(auto)]

use anyhow::anyhow;
use pagemap::listing::listing;
use std::env;
use std::io::Read;

// A byte more than the longest image, so that a longer one is seen to be too long.
const MOST: u64 = 524_289;

// cardrun reads and prints alike, and each main is a dozen lines: one for both would need a crate that takes the handle.
fn main(rt: HostRuntime) -> anyhow::Result<()> {
    let mut image = Vec::new(rt.alloc());
    rt.stdin().take(MOST).read_to_end(&mut image)?;
    let arguments: Vec<String> = env::args(&rt)?.skip(1).collect(rt.alloc())?;
    match listing(rt.alloc(), &mut image, &arguments) {
        Ok(text) => {
            rt.print(text)?;
            Ok(())
        }
        Err(reason) => {
            rt.println(reason)?;
            Err(anyhow!("no listing"))
        }
    }
}
