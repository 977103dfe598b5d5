// cardrun: puts the image on standard input into a card's bank, runs the card for 1,000 states, and prints the plot.
#![tactic(auto)]

use plotting::image::plot;
use std::io::Read;
use std::process::ExitCode;

// A byte more than the longest image, so that a longer one is seen to be too long.
const MOST: u64 = 65_537;

// cardmap reads and prints alike, and each main is a dozen lines: one for both would need a crate that takes the handle.
fn main(rt: HostRuntime) -> anyhow::Result<ExitCode> {
    let mut image = Vec::new(rt.alloc());
    rt.stdin().take(MOST).read_to_end(&mut image)?;
    match plot(rt.alloc(), &image) {
        Ok(text) => {
            rt.print(text)?;
            Ok(ExitCode::SUCCESS)
        }
        Err(reason) => {
            rt.println(reason)?;
            Ok(ExitCode::FAILURE)
        }
    }
}
