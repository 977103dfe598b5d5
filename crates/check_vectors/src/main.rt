// Makes the step of each vector on standard input and compares all that stands after it, then prints for each source of
// vectors how many agree.
#![tactic(auto)]

mod access;
mod cell;
mod outcome;
mod reader;
mod recorder;
mod state;
mod tally;
mod trial;
mod vector;
mod zeros;

use outcome::Outcome;
use std::io;
use std::io::{BufRead, BufReader};
use tally::Tally;
use vector::{Source, Vector};
use zeros::Zeros;

// How many lines are told of that differ.
const TOLD: u32 = 20;

// Prints the numbers that differ.
fn differences(
    rt: &HostRuntime,
    line: u32,
    names: &[&str],
    is: &[u32],
    must: &[u32],
) -> io::Result<()> {
    for (name, (is, must)) in names.iter().zip(is.iter().zip(must.iter())) {
        if *is != *must {
            println!(rt; "line {line}: {name} is {is:X}, not {must:X}")?;
        }
    }
    Ok(())
}

fn tell(rt: &HostRuntime, line: u32, is: &Outcome, must: &Outcome) -> io::Result<()> {
    differences(
        rt,
        line,
        &outcome::MAIN,
        &outcome::set(&is.cpu.main),
        &outcome::set(&must.cpu.main),
    )?;
    differences(
        rt,
        line,
        &outcome::ALTERNATE,
        &outcome::set(&is.cpu.alternate),
        &outcome::set(&must.cpu.alternate),
    )?;
    differences(rt, line, &outcome::SINGLE, &is.single(), &must.single())?;
    differences(rt, line, &outcome::OUTSIDE, &is.outside(), &must.outside())
}

// The counts of a whole input.
#[derive(Clone, Copy, Default)]
struct Counts {
    lines: u32,
    z80ex: Tally,
    ucsim: Tally,
    hand: Tally,
    malformed: u32,
}

impl Counts {
    fn differ(&self) -> u32 {
        self.z80ex
            .differ
            .saturating_add(self.ucsim.differ)
            .saturating_add(self.hand.differ)
    }

    fn count(&mut self, source: Source, agrees: bool) {
        match source {
            Source::Z80ex => self.z80ex.count(agrees),
            Source::Ucsim => self.ucsim.count(agrees),
            Source::Hand => self.hand.count(agrees),
        }
    }
}

fn judge(rt: &HostRuntime, counts: &mut Counts, line: &[u8], bank: &mut Zeros) -> io::Result<()> {
    counts.lines = counts.lines.saturating_add(1);
    let Some(vector) = Vector::read(line) else {
        let number = counts.lines;
        counts.malformed = counts.malformed.saturating_add(1);
        return println!(rt; "line {number} is no vector");
    };
    let is = bank.outcome(&vector);
    let agrees = is == vector.after;
    if !agrees && counts.differ() < TOLD {
        tell(rt, counts.lines, &is, &vector.after)?;
    }
    counts.count(vector.source, agrees);
    Ok(())
}

fn row(rt: &HostRuntime, name: &str, tally: Tally) -> io::Result<()> {
    let agree = tally.agree;
    let differ = tally.differ;
    println!(rt; "{name} {agree} agree, {differ} differ")
}

fn run(rt: &HostRuntime, bank: &mut Zeros) -> io::Result<()> {
    let mut counts = Counts::default();
    for line in BufReader::new(rt.alloc(), rt.stdin())?.lines(rt.alloc()) {
        let line = line?;
        judge(rt, &mut counts, line.as_bytes(), bank)?;
    }
    row(rt, "z80ex", counts.z80ex)?;
    row(rt, "ucsim", counts.ucsim)?;
    row(rt, "by hand", counts.hand)?;
    let malformed = counts.malformed;
    println!(rt; "malformed {malformed}")
}

fn main(rt: HostRuntime) -> anyhow::Result<()> {
    let mut bank = Zeros::new(rt.alloc())?;
    run(&rt, &mut bank)?;
    Ok(())
}
