// Runs a card over the busy image for as many steps as standard input says, in decimal, and prints what bench/z80ex-run.c prints of
// the same steps, for comparing and for timing.
#![tactic(auto)]

mod image;
mod sum;

use anyhow::anyhow;
use card::card::Card;
use card::look::LONGEST;
use denial::Denial;
use image::IMAGE;
use memory::Memory;
use memory::bank::Bank;
use memory::length::BoardLength;
use panel::Panel;
use panel::script::Script;
use panel::sent::Sent;
use std::alloc::{AllocError, Global};
use std::io::Read;
use sum::{bytes_mixed, registers_mixed};

// As far as the image's window reaches: the bank area shows pages 24H to 27H, common area 1 pages 18H to 1FH.
const BYTES: usize = 0x28 * 4096;

// No run has a budget above a million states.
const MOST_STEPS: u64 = 333_333;

// What the runs come to.
#[derive(Clone, Copy)]
struct Timed {
    states: u64,
    sum: u32,
    last: Option<Sent>,
}

// As the bank of a plot is made, in plotting: each program stands alone.
fn memory_with_image(heap: Global) -> Result<Vec<u8>, AllocError> {
    let mut bytes = Vec::from_slice(heap, &IMAGE)?;
    bytes.resize(BYTES, 0)?;
    Ok(bytes)
}

// Runs of a card until it has made so many steps; the states that they took. A step takes three states or more, so a run of three for
// each step that is left makes at least one and no more than are left. This image never halts, and this panel denies no step. A `while`
// on what is left would not be known to end, since that a run makes a step is not in what it answers.
fn steps<M: Memory, P: Panel>(card: &mut Card<M, P>, count: u64) -> Result<u64, Denial> {
    let mut states = 0u64;
    let mut left = count;
    for _run in 0..count {
        if left == 0 {
            break;
        }
        let ran = card.run(left.min(MOST_STEPS) as u32 * 3)?;
        states = states.wrapping_add(ran.states);
        left = left.saturating_sub(u64::from(ran.steps));
    }
    Ok(states)
}

// A checksum over the registers and the 64 KiB of memory as the card's window shows them.
fn checksum<M: Memory, P>(card: &mut Card<M, P>) -> Result<u32, Denial> {
    let (cpu, window) = card.registers();
    let mut sum = registers_mixed(&cpu);
    let mut page = [0u8; LONGEST];
    for number in 0..16u16 {
        card.look(window, number * 4096, &mut page)?;
        sum = bytes_mixed(sum, &page);
    }
    Ok(sum)
}

// The panel's threshold stands where INT0 does not matter, since the image leaves IEF1 at 0.
fn run(heap: Global, bytes: &mut [u8], size: BoardLength, count: u64) -> Result<Timed, Denial> {
    let panel = Script::new(Vec::new(heap), 0xFFFF_FFFF, 0xFF);
    let mut card = Card::new(Bank::new(bytes, size), panel);
    let states = steps(&mut card, count)?;
    let sum = checksum(&mut card)?;
    Ok(Timed {
        states,
        sum,
        last: card.panel().last_write(),
    })
}

fn show(rt: &HostRuntime, count: u64, timed: Timed) -> anyhow::Result<()> {
    let Timed { states, sum, last } = timed;
    println!(rt; "steps {count}\nchecksum {sum:08X}")?;
    if let Some(Sent { port, byte }) = last {
        println!(rt; "last port write {port:04X} {byte:02X}")?;
    }
    println!(rt; "states {states}")?;
    Ok(())
}

fn main(rt: HostRuntime) -> anyhow::Result<()> {
    let mut text = String::new(rt.alloc());
    rt.stdin().take(64).read_to_string(&mut text)?;
    let count = text.as_str().trim().parse::<u64>()?;
    let mut bytes = memory_with_image(rt.alloc())?;
    let size = BoardLength::of_bank(&bytes).map_err(|_| anyhow!("the memory is too long"))?;
    let timed = run(rt.alloc(), &mut bytes, size, count).map_err(|_| anyhow!("a run is denied"))?;
    show(&rt, count, timed)
}
