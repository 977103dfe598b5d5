// Every byte of every page of the opcode map: the undefined ones trap, the others do not.
use crate::card::*;
use crate::probe::Probe;
use machine::cost::Cost;
use machine::state::Machine;
use memory::Memory;
use registers::registers::Registers;
use std::process::Abort;
use std::test::Fail;

// Undefined behind CBH.
const NOT_CB: [u8; 8] = [0x30, 0x31, 0x32, 0x33, 0x34, 0x35, 0x36, 0x37];

// Instructions behind EDH.
const ED: [u8; 91] = [
    0x00, 0x01, 0x04, 0x08, 0x09, 0x0C, 0x10, 0x11, 0x14, 0x18, 0x19, 0x1C, 0x20, 0x21, 0x24, 0x28,
    0x29, 0x2C, 0x34, 0x38, 0x39, 0x3C, 0x40, 0x41, 0x42, 0x43, 0x44, 0x45, 0x46, 0x47, 0x48, 0x49,
    0x4A, 0x4B, 0x4C, 0x4D, 0x4F, 0x50, 0x51, 0x52, 0x53, 0x56, 0x57, 0x58, 0x59, 0x5A, 0x5B, 0x5C,
    0x5E, 0x5F, 0x60, 0x61, 0x62, 0x63, 0x64, 0x67, 0x68, 0x69, 0x6A, 0x6B, 0x6C, 0x6F, 0x72, 0x73,
    0x74, 0x76, 0x78, 0x79, 0x7A, 0x7B, 0x7C, 0x83, 0x8B, 0x93, 0x9B, 0xA0, 0xA1, 0xA2, 0xA3, 0xA8,
    0xA9, 0xAA, 0xAB, 0xB0, 0xB1, 0xB2, 0xB3, 0xB8, 0xB9, 0xBA, 0xBB,
];

// Behind DDH and FDH: instructions, and CBH, which leads on.
const INDEXED: [u8; 40] = [
    0x09, 0x19, 0x21, 0x22, 0x23, 0x29, 0x2A, 0x2B, 0x34, 0x35, 0x36, 0x39, 0x46, 0x4E, 0x56, 0x5E,
    0x66, 0x6E, 0x70, 0x71, 0x72, 0x73, 0x74, 0x75, 0x77, 0x7E, 0x86, 0x8E, 0x96, 0x9E, 0xA6, 0xAE,
    0xB6, 0xBE, 0xCB, 0xE1, 0xE3, 0xE5, 0xE9, 0xF9,
];

// Instructions behind DDH CBH d and FDH CBH d.
const INDEXED_CB: [u8; 31] = [
    0x06, 0x0E, 0x16, 0x1E, 0x26, 0x2E, 0x3E, 0x46, 0x4E, 0x56, 0x5E, 0x66, 0x6E, 0x76, 0x7E, 0x86,
    0x8E, 0x96, 0x9E, 0xA6, 0xAE, 0xB6, 0xBE, 0xC6, 0xCE, 0xD6, 0xDE, 0xE6, 0xEE, 0xF6, 0xFE,
];

// R's low seven bits count the opcode bytes.
fn counted(r: u8, bytes: u8) -> u8 {
    r / 128 * 128 + r.wrapping_add(bytes) % 128
}

// The opcode byte that is undefined. The test has its own, with what it expects, and not that of what it tests.
#[derive(Clone, Copy)]
enum Undefined {
    Second,
    Third,
}

impl Undefined {
    // TRAP, with UFO for the third byte.
    fn trap(self) -> u8 {
        match self {
            Undefined::Second => 0x80,
            Undefined::Third => 0xC0,
        }
    }

    // How many opcode bytes were read.
    fn bytes(self) -> u8 {
        match self {
            Undefined::Second => 2,
            Undefined::Third => 3,
        }
    }

    // How far behind the first opcode byte it stands, a displacement not counted.
    fn past(self) -> u16 {
        match self {
            Undefined::Second => 1,
            Undefined::Third => 2,
        }
    }

    // What the step costs that traps.
    fn cost(self) -> Cost {
        match self {
            Undefined::Second => Cost {
                cycles: 4,
                states: 12,
            },
            Undefined::Third => Cost {
                cycles: 6,
                states: 18,
            },
        }
    }
}

// What a trap changes of the registers: nothing but these four.
fn after_trap(before: Registers, undefined: Undefined) -> Registers {
    Registers {
        itc: undefined.trap() | before.itc % 64,
        pc: 0,
        sp: before.sp.wrapping_sub(2),
        r: counted(before.r, undefined.bytes()),
        ..before
    }
}

// The step traps: the address of the undefined byte is pushed.
fn traps<M: Memory>(rt: &impl Abort, m: &mut Machine<M, Probe>, undefined: Undefined) {
    let before = m.cpu;
    takes(rt, m, undefined.cost());
    assert_eq!(rt; m.cpu, after_trap(before, undefined));
    let pushed = before.pc.wrapping_add(undefined.past());
    has(rt, m, m.cpu.sp, &pushed.to_le_bytes());
}

// A step is taken, and ITC is as it was.
fn executes<M: Memory>(rt: &impl Abort, m: &mut Machine<M, Probe>) -> Result<(), Fail> {
    let itc = m.cpu.itc;
    let _ = stepped(m)?;
    assert_eq!(rt; m.cpu.itc, itc);
    Ok(())
}

// A program, and which of its bytes is undefined, if any.
#[derive(Clone, Copy)]
struct Trial {
    program: [u8; 4],
    undefined: Option<Undefined>,
}

// One program from fresh registers with this ITC.
fn one<M: Memory>(
    rt: &impl Abort,
    m: &mut Machine<M, Probe>,
    itc: u8,
    trial: Trial,
) -> Result<(), Fail> {
    m.cpu = Registers { itc, ..ready() };
    put(m, START, &trial.program)?;
    match trial.undefined {
        None => executes(rt, m)?,
        Some(undefined) => traps(rt, m, undefined),
    }
    Ok(())
}

// A program for each byte. It answers how many had an undefined one.
fn all<M: Memory, F: Fn(u8) -> Trial>(
    rt: &impl Abort,
    m: &mut Machine<M, Probe>,
    itc: u8,
    trial: F,
) -> Result<u32, Fail>
    requires { F.IsAlwaysCallable trial }
{
    let mut undefined = 0u32;
    for byte in 0..=255 {
        let trial = trial(byte);
        one(rt, m, itc, trial)?;
        undefined = undefined.wrapping_add(u32::from(trial.undefined.is_some()));
    }
    Ok(undefined)
}

// Behind DDH CBH a defined third byte follows.
fn second(prefix: u8, byte: u8, defined: bool) -> Trial {
    Trial {
        program: [prefix, byte, 0x00, 0x06],
        undefined: (!defined).then_some(Undefined::Second),
    }
}

fn third(prefix: u8, byte: u8, defined: bool) -> Trial {
    Trial {
        program: [prefix, 0xCB, 0x80, byte],
        undefined: (!defined).then_some(Undefined::Third),
    }
}

#[test]
fn behind_cb_and_ed(rt: HostRuntime) -> Result<(), Fail> {
    let mut bytes = vec![in rt.alloc(); 0u8; 65_536]?;
    let mut m = banked(&mut bytes)?;
    for itc in [0x39, 0x7C, 0xFF] {
        let cb = |byte| second(0xCB, byte, !NOT_CB.contains(&byte));
        let ed = |byte| second(0xED, byte, ED.contains(&byte));
        assert_eq!(rt; all(&rt, &mut m, itc, cb)?, 8);
        assert_eq!(rt; all(&rt, &mut m, itc, ed)?, 165);
    }
    Ok(())
}

#[test]
fn behind_dd_and_fd(rt: HostRuntime) -> Result<(), Fail> {
    let mut bytes = vec![in rt.alloc(); 0u8; 65_536]?;
    let mut m = banked(&mut bytes)?;
    for prefix in [0xDD, 0xFD] {
        for itc in [0x39, 0x7C, 0xFF] {
            let page = |byte| second(prefix, byte, INDEXED.contains(&byte));
            let behind_cb = |byte| third(prefix, byte, INDEXED_CB.contains(&byte));
            assert_eq!(rt; all(&rt, &mut m, itc, page)?, 216);
            assert_eq!(rt; all(&rt, &mut m, itc, behind_cb)?, 225);
        }
    }
    Ok(())
}

// No byte of the main page traps; four of them lead to the other pages.
fn main_page<M: Memory>(
    rt: &impl Abort,
    m: &mut Machine<M, Probe>,
    prefixes: &[u8],
) -> Result<(), Fail> {
    for byte in (0..=255u8).filter(|byte| !prefixes.contains(byte)) {
        let trial = Trial {
            program: [byte, 0, 0, 0],
            undefined: None,
        };
        one(rt, m, 0x39, trial)?;
    }
    Ok(())
}

#[test]
fn on_the_main_page(rt: HostRuntime) -> Result<(), Fail> {
    let mut bytes = vec![in rt.alloc(); 0u8; 65_536]?;
    let mut m = banked(&mut bytes)?;
    main_page(&rt, &mut m, &[0xCB, 0xDD, 0xED, 0xFD])
}

// The pushed address and R wrap.
#[test]
fn at_the_end_of_memory(rt: HostRuntime) -> Result<(), Fail> {
    let mut bytes = vec![in rt.alloc(); 0u8; 65_536]?;
    let mut m = banked(&mut bytes)?;
    for (pc, r, prefix, undefined, after) in [
        (0xFFFF, 0x7E, 0xED, Undefined::Second, 0x00),
        (0xFFFE, 0xFF, 0xDD, Undefined::Third, 0x82),
    ] {
        m.cpu = Registers { pc, r, ..ready() };
        put(&mut m, pc, &[prefix, 0xCB, 0x05, 0x30])?;
        traps(&rt, &mut m, undefined);
        assert_eq!(rt; m.cpu.r, after);
    }
    Ok(())
}
