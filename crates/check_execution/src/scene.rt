// A test as a list: what is given, and what then happens step by step.
use crate::card::*;
use crate::probe::Probe;
use denial::Denial;
use machine::cost::Cost;
use machine::state::Machine;
use memory::Memory;
use panel::Panel;
use panel::line::Line;
use panel::sent::Sent;
use registers::registers::{InterruptMode, Mode};
use registers::window::Window;
use std::alloc::Global;
use std::process::Abort;
use std::test::Fail;

// What is given and what then happens are enums and no closures, since a list of them is the text of a test.
#[derive(Clone, Copy)]
pub enum Given {
    Asks(Line),
    // the panel goes on asking when a line is acknowledged
    Keeps,
    Full,
    // the panel's INT0 byte
    Gives(u8),
    Im(InterruptMode),
    Itc(u8),
    I(u8),
    Il(u8),
    Sp(u16),
    // IEF1 and IEF2
    Flips(bool, bool),
    Is(Mode),
    // two bytes in memory
    Word(u16, u16),
    // a byte by its physical address
    Cell(u32, u8),
    Pc(u16),
    A(u8),
    R(u8),
    Hl(u8, u8),
    Icr(u8),
    Shows(Window),
}

#[derive(Clone, Copy)]
pub enum Then {
    // a step of so many cycles and states goes on at an address
    Goes(u32, u32, u16, Mode),
    // a line is served in so many cycles and states, from an address on
    Serves(Line, u32, u32, u16),
    Denies(Denial),
    // the flip-flops are so
    Has(bool, bool),
    // the panel begins, or ends, to ask for a line
    Asks(Line),
    Drops(Line),
    // the panel is full, or no longer
    Fills(bool),
    Sees(Seen),
}

#[derive(Clone, Copy)]
pub enum Seen {
    A(u8),
    Hl(u8, u8),
    R(u8),
    Sp(u16),
    Icr(u8),
    Cbr(u8),
    // two bytes in memory
    Word(u16, u16),
    // the panel's last write, and the port of its last read, if any
    Sent(Option<Sent>),
    Read(Option<u16>),
}

fn give<M: Memory>(m: &mut Machine<M, Probe>, given: Given) -> Result<(), Fail> {
    match given {
        Given::Asks(line) => m.panel.asked.set(line, true),
        Given::Keeps => m.panel.keeps = true,
        Given::Full => m.panel.full = true,
        Given::Gives(byte) => m.panel.byte = byte,
        Given::Im(mode) => m.cpu.im = mode,
        Given::Itc(byte) => m.cpu.itc = byte,
        Given::I(byte) => m.cpu.i = byte,
        Given::Il(byte) => m.cpu.il = byte,
        Given::Sp(at) => m.cpu.sp = at,
        Given::Flips(ief1, ief2) => (m.cpu.ief1, m.cpu.ief2) = (ief1, ief2),
        Given::Is(mode) => m.cpu.mode = mode,
        Given::Word(at, value) => put(m, at, &value.to_le_bytes())?,
        Given::Cell(at, byte) => m.memory.write(at, byte)?,
        Given::Pc(at) => m.cpu.pc = at,
        Given::A(byte) => m.cpu.main.a = byte,
        Given::R(byte) => m.cpu.r = byte,
        Given::Hl(high, low) => (m.cpu.main.h, m.cpu.main.l) = (high, low),
        Given::Icr(byte) => m.cpu.icr = byte,
        Given::Shows(window) => m.window = window,
    }
    Ok(())
}

fn see<M: Memory>(rt: &impl Abort, m: &Machine<M, Probe>, seen: Seen) {
    match seen {
        Seen::A(byte) => assert_eq!(rt; m.cpu.main.a, byte),
        Seen::Hl(high, low) => assert_eq!(rt; (m.cpu.main.h, m.cpu.main.l), (high, low)),
        Seen::R(byte) => assert_eq!(rt; m.cpu.r, byte),
        Seen::Sp(at) => assert_eq!(rt; m.cpu.sp, at),
        Seen::Icr(byte) => assert_eq!(rt; m.cpu.icr, byte),
        Seen::Cbr(byte) => assert_eq!(rt; m.window.cbr, byte),
        Seen::Word(at, value) => has(rt, m, at, &value.to_le_bytes()),
        Seen::Sent(sent) => assert_eq!(rt; m.panel.last_write, sent),
        Seen::Read(port) => assert_eq!(rt; m.panel.last_read, port),
    }
}

fn follow<M: Memory>(rt: &impl Abort, m: &mut Machine<M, Probe>, then: Then) {
    match then {
        Then::Goes(cycles, states, pc, mode) => goes_on(rt, m, Cost { cycles, states }, pc, mode),
        Then::Serves(line, cycles, states, pc) => serves(rt, m, line, Cost { cycles, states }, pc),
        Then::Denies(denial) => denied(rt, m, denial),
        Then::Has(ief1, ief2) => enables(rt, m, ief1, ief2),
        Then::Asks(line) => m.panel.asked.set(line, true),
        Then::Drops(line) => m.panel.asked.set(line, false),
        Then::Fills(full) => m.panel.full = full,
        Then::Sees(seen) => see(rt, m, seen),
    }
}

pub fn play<M: Memory>(
    rt: &impl Abort,
    m: &mut Machine<M, Probe>,
    given: &[Given],
    then: &[Then],
) -> Result<(), Fail> {
    for one in given {
        give(m, *one)?;
    }
    for one in then {
        follow(rt, m, *one);
    }
    Ok(())
}

// The program stands at 1234H, in a memory of 160 KiB of zeros. Two handles, here and in other tests, since one that ends the process
// gives no memory, and the runtime, which has both, may not be handed on for the former.
pub fn scene(
    rt: &impl Abort,
    heap: Global,
    program: &[u8],
    given: &[Given],
    then: &[Then],
) -> Result<(), Fail> {
    let mut bytes = vec![in heap; 0u8; 0x2_8000]?;
    let mut m = banked(&mut bytes)?;
    put(&mut m, START, program)?;
    play(rt, &mut m, given, then)
}
