// Faults: a step that is denied changes nothing, and a run does not count it.
use crate::cards::{
    asking, denied_as, holds, over, pc_is, ran, registers_are, runs, unchanged, with_room_for,
};
use card::card::Card;
use card::ran::{Ran, Stop};
use denial::{Denial, Fault, Layer};
use memory::Memory;
use panel::Panel;
use panel::chain::Chain;
use panel::track::Track;
use std::process::Abort;
use std::test::Fail;

fn faulted(fault: Fault, steps: u32, cycles: u64, states: u64) -> Ran {
    ran(Stop::Fault(fault), steps, cycles, states)
}

// The step is denied, with PC, and leaves every register and the memory.
fn step_denied<M: Memory, P: Panel>(
    rt: &impl Abort,
    card: &mut Card<M, P>,
    fault: Fault,
    bytes: &[u8],
) {
    let was = card.registers();
    assert_eq!(rt; card.step(), Err(fault));
    registers_are(rt, card, was);
    holds(rt, card, bytes);
}

// LD A,5 and two times OUT0 (80H),A.
const PLOT: [u8; 8] = [0x3E, 5, 0xED, 0x39, 0x80, 0xED, 0x39, 0x80];

fn one_byte_recorded<M: Memory>(rt: &impl Abort, card: &Card<M, Chain>) {
    let panel = card.panel();
    assert!(rt; panel.full());
    assert_eq!(rt; panel.used(), 1);
    assert_eq!(rt; panel.first(Track::Pen), 1);
    assert_eq!(rt; panel.first(Track::X), 0);
    assert_eq!(rt; panel.first(Track::Y), 0);
    assert_eq!(rt; panel.key(), 0);
    assert!(rt; !panel.latch());
}

#[test]
fn a_full_panel(rt: HostRuntime) -> Result<(), Fail> {
    let full = Fault {
        denial: Denial::PanelFull,
        pc: 5,
    };
    denied_as(&rt, full.denial, 8, Layer::Panel);
    let mut bytes = PLOT;
    let mut card = over(&mut bytes, with_room_for(rt.alloc(), 1)?)?;
    runs(&rt, &mut card, 1000, faulted(full, 2, 7, 19));
    one_byte_recorded(&rt, &card);
    step_denied(&rt, &mut card, full, &PLOT);
    one_byte_recorded(&rt, &card);
    // the first step is denied: nothing is counted
    runs(&rt, &mut card, 1000, faulted(full, 0, 0, 0));
    one_byte_recorded(&rt, &card);
    pc_is(&rt, &card, 5);
    Ok(())
}

// EI keeps INT0 out of the NOP behind it.
const ENABLING: [u8; 3] = [0xFB, 0, 0];

#[test]
fn a_byte_that_is_no_restart(rt: HostRuntime) -> Result<(), Fail> {
    let no_restart = Fault {
        denial: Denial::NoRestartByte,
        pc: 2,
    };
    denied_as(&rt, no_restart.denial, 9, Layer::Panel);
    let mut bytes = ENABLING;
    let mut card = over(&mut bytes, asking(rt.alloc(), 1, 0xC6))?;
    runs(&rt, &mut card, 1000, faulted(no_restart, 2, 2, 6));
    let was = card.registers();
    step_denied(&rt, &mut card, no_restart, &ENABLING);
    unchanged(&rt, &card, was, &ENABLING, true);
    runs(&rt, &mut card, 1, faulted(no_restart, 0, 0, 0));
    unchanged(&rt, &card, was, &ENABLING, true);
    Ok(())
}
