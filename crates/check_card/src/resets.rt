// All registers after a few steps, and after reset.
use crate::cards::{holds, over, quiet, registers_are};
use arithmetic::flags::Flags;
use card::card::Card;
use memory::Memory;
use panel::Panel;
use panel::sent::Sent;
use registers::registers::{InterruptMode, Mode, RegisterSet, Registers};
use registers::window::Window;
use std::process::Abort;
use std::test::Fail;

// LD A,12H; LD I,A; EX AF,AF'; LD SP,1234H; LD IX,ABCDH; LD IY,2001H; LD BC,0203H; EXX; LD A,41H; OUT0 (33H),A;
// OUT0 (3AH),A; IM 2; OUT0 (80H),A; EI.
const PROGRAM: [u8; 34] = [
    0x3E, 0x12, 0xED, 0x47, 0x08, 0x31, 0x34, 0x12, 0xDD, 0x21, 0xCD, 0xAB, 0xFD, 0x21, 0x01, 0x20,
    0x01, 0x03, 0x02, 0xD9, 0x3E, 0x41, 0xED, 0x39, 0x33, 0xED, 0x39, 0x3A, 0xED, 0x5E, 0xED, 0x39,
    0x80, 0xFB,
];

fn steps<M: Memory, P: Panel>(card: &mut Card<M, P>, count: u32) -> Result<(), Fail> {
    for _ in 0..count {
        let _ = card.step()?;
    }
    Ok(())
}

// What reset sets.
fn reset() -> Registers {
    Registers {
        main: RegisterSet::default(),
        alternate: RegisterSet::default(),
        ix: 0,
        iy: 0,
        sp: 0,
        pc: 0,
        i: 0,
        r: 0,
        ief1: false,
        ief2: false,
        im: InterruptMode::Zero,
        mode: Mode::Running,
        ei: false,
        il: 0,
        itc: 0x39,
        icr: 0x1F,
    }
}

fn after_the_program<M: Memory, P>(rt: &impl Abort, card: &Card<M, P>) {
    let cpu = Registers {
        main: RegisterSet {
            a: 0x41,
            ..RegisterSet::default()
        },
        alternate: RegisterSet {
            a: 0x12,
            b: 2,
            c: 3,
            ..RegisterSet::default()
        },
        ix: 0xABCD,
        iy: 0x2001,
        sp: 0x1234,
        pc: 34,
        i: 0x12,
        r: 21,
        ief1: true,
        ief2: true,
        im: InterruptMode::Two,
        ei: true,
        il: 0x40,
        ..reset()
    };
    let window = Window {
        cbar: 0x41,
        cbr: 0,
        bbr: 0,
    };
    registers_are(rt, card, (cpu, window));
}

fn after_reset<M: Memory, P>(rt: &impl Abort, card: &Card<M, P>) {
    let window = Window {
        cbar: 0xF0,
        cbr: 0,
        bbr: 0,
    };
    registers_are(rt, card, (reset(), window));
}

#[test]
fn every_register_is_reset(rt: HostRuntime) -> Result<(), Fail> {
    let mut bytes = PROGRAM;
    let mut card = over(&mut bytes, quiet(rt.alloc()))?;
    after_reset(&rt, &card);
    steps(&mut card, 14)?;
    after_the_program(&rt, &card);
    card.reset();
    after_reset(&rt, &card);
    holds(&rt, &card, &PROGRAM);
    let sent = Sent {
        port: 0x0080,
        byte: 0x41,
    };
    assert_eq!(rt; card.panel().last_write(), Some(sent));
    Ok(())
}

// SCF and EX AF,AF'; then SLP, which a reset ends.
#[test]
fn a_reset_wakes_the_card(rt: HostRuntime) -> Result<(), Fail> {
    let mut bytes = [0x37, 0x08, 0xED, 0x76];
    let mut card = over(&mut bytes, quiet(rt.alloc()))?;
    steps(&mut card, 3)?;
    let cpu = Registers {
        alternate: RegisterSet {
            f: Flags::from(1),
            ..RegisterSet::default()
        },
        pc: 4,
        r: 4,
        mode: Mode::Asleep,
        ..reset()
    };
    registers_are(&rt, &card, (cpu, Window::RESET));
    card.reset();
    after_reset(&rt, &card);
    holds(&rt, &card, &[0x37, 0x08, 0xED, 0x76, 0xFF]);
    Ok(())
}
