// A card for tests, what is put into it, and what is compared.
use crate::probe::{Asked, Probe};
use denial::{Denial, Fault};
use execution::step::step;
use machine::cost::Cost;
use machine::state::Machine;
use memory::Memory;
use memory::bank::Bank;
use memory::length::BoardLength;
use panel::Panel;
use panel::line::Line;
use registers::registers::{InterruptMode, Mode, Registers};
use registers::window::Window;
use std::process::Abort;
use std::test::Fail;

// Where programs begin, and the stack.
pub const START: u16 = 0x1234;

pub const STACK: u16 = 0x8000;

// Interrupts are enabled, all lines by ITC too; INT0 is in mode 1, and the table is at 2000H.
pub fn ready() -> Registers {
    Registers {
        pc: START,
        sp: STACK,
        i: 0x20,
        il: 0x40,
        ief1: true,
        ief2: true,
        im: InterruptMode::One,
        itc: 0x3F,
        r: 5,
        ..Registers::new()
    }
}

// A panel that asks for nothing, and drops what is acknowledged.
pub fn silent() -> Probe {
    Probe {
        asked: Asked::default(),
        keeps: false,
        byte: 0x10,
        full: false,
        answer: 0x99,
        acknowledged: None,
        told: 0,
        last_write: None,
        last_read: None,
    }
}

pub fn card<M>(memory: M) -> Machine<M, Probe> {
    Machine {
        cpu: ready(),
        window: Window::RESET,
        memory,
        panel: silent(),
        spent: Cost::default(),
    }
}

pub fn banked(bytes: &mut [u8]) -> Result<Machine<Bank<'_>, Probe>, Fail> {
    let size = BoardLength::of_bank(bytes)?;
    Ok(card(Bank::new(bytes, size)))
}

// So far behind an address; addresses wrap at the end of the logical space.
fn behind(at: u16, i: usize) -> u16 {
    at.wrapping_add((i % 65_536) as u16)
}

pub fn put<M: Memory>(m: &mut Machine<M, Probe>, at: u16, bytes: &[u8]) -> Result<(), Fail> {
    for (i, byte) in bytes.iter().enumerate() {
        m.memory.write(m.window.physical(behind(at, i)), *byte)?;
    }
    Ok(())
}

pub fn has<M: Memory>(rt: &impl Abort, m: &Machine<M, Probe>, at: u16, bytes: &[u8]) {
    for (i, byte) in bytes.iter().enumerate() {
        let at = m.window.physical(behind(at, i));
        assert_eq!(rt; m.memory.read(at), Ok(*byte));
    }
}

// A step, of which callers need to know nothing.
pub fn stepped<M: Memory>(m: &mut Machine<M, Probe>) -> Result<Cost, Fault> {
    step(m)
}

// A step costs so much, and the panel is told its states.
pub fn takes<M: Memory>(rt: &impl Abort, m: &mut Machine<M, Probe>, cost: Cost) {
    let told = m.panel.told;
    assert_eq!(rt; stepped(m), Ok(cost));
    assert_eq!(rt; m.panel.told, told.saturating_add(cost.states));
}

// The flip-flops.
pub fn enables<M>(rt: &impl Abort, m: &Machine<M, Probe>, ief1: bool, ief2: bool) {
    assert_eq!(rt; (m.cpu.ief1, m.cpu.ief2), (ief1, ief2));
}

// A step of so many cycles goes on at an address in this mode, and acknowledges no line.
pub fn goes_on<M: Memory>(
    rt: &impl Abort,
    m: &mut Machine<M, Probe>,
    cost: Cost,
    pc: u16,
    mode: Mode,
) {
    m.panel.acknowledged = None;
    takes(rt, m, cost);
    assert_eq!(rt; (m.cpu.pc, m.cpu.mode), (pc, mode));
    assert_eq!(rt; m.panel.acknowledged, None);
}

// PC has gone to an address, R is as it was, and what it was is on the stack.
fn entered<M: Memory>(rt: &impl Abort, m: &Machine<M, Probe>, before: Registers, pc: u16) {
    assert_eq!(rt; (m.cpu.pc, m.cpu.mode), (pc, Mode::Running));
    assert_eq!(rt; (m.cpu.sp, m.cpu.r), (before.sp.wrapping_sub(2), before.r));
    has(rt, m, m.cpu.sp, &before.pc.to_le_bytes());
}

// A line is served: PC is pushed and goes to an address, IEF1 is 0, and R stays.
pub fn serves<M: Memory>(
    rt: &impl Abort,
    m: &mut Machine<M, Probe>,
    line: Line,
    cost: Cost,
    pc: u16,
) {
    let before = m.cpu;
    takes(rt, m, cost);
    entered(rt, m, before, pc);
    assert_eq!(rt; m.panel.acknowledged, Some(line));
    enables(rt, m, false, line == Line::Nmi && before.ief1);
}

// A sum over the first 64 KiB of memory.
fn sum<M: Memory>(m: &Machine<M, Probe>) -> u32 {
    (0..0x1_0000u32).fold(0, |sum: u32, at| {
        let byte = m.memory.read(at).unwrap_or(0);
        sum.wrapping_mul(31).wrapping_add(u32::from(byte))
    })
}

// A step is denied and tells where PC stands.
fn refused<M: Memory>(rt: &impl Abort, m: &mut Machine<M, Probe>, denial: Denial) {
    let fault = Fault {
        denial,
        pc: m.cpu.pc,
    };
    assert_eq!(rt; stepped(m), Err(fault));
}

// A step is denied, and changes nothing.
pub fn denied<M: Memory>(rt: &impl Abort, m: &mut Machine<M, Probe>, denial: Denial) {
    let (cpu, window, panel, before) = (m.cpu, m.window, m.panel, sum(m));
    refused(rt, m, denial);
    assert_eq!(rt; (m.cpu, m.window), (cpu, window));
    assert_eq!(rt; m.panel, panel);
    assert_eq!(rt; sum(m), before);
}
