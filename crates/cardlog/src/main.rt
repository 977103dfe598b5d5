// cardlog [FILE]: serves the log of a script on a card, or on two, and lists every answer. Without a file the script is on standard
// input.
#![tactic(auto)]

mod cards;
mod input;
mod log;
mod start;

use input::script_text;
use script::assembled::parse;
use start::{refuse, start};
use std::process::ExitCode;

fn main(rt: HostRuntime) -> anyhow::Result<ExitCode> {
    let text = script_text(&rt)?;
    match parse(rt.alloc(), &text) {
        Ok(script) => start(&rt, &script),
        Err(refused) => refuse(&rt, refused),
    }
}
