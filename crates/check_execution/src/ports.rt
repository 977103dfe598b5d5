// Which ports are the processor's own, and which the panel's.
use crate::card::*;
use crate::probe::Probe;
use crate::scene::*;
use machine::cost::Cost;
use machine::state::Machine;
use memory::Memory;
use panel::sent::Sent;
use registers::registers::{Mode, Registers};
use registers::window::Window;
use std::process::Abort;
use std::test::Fail;

const BASES: Window = Window {
    cbar: 0xF0,
    cbr: 0x7C,
    bbr: 0,
};

// OUT (38H),A and IN A,(38H) have A in the upper half of the port.
#[test]
fn a_is_the_upper_half(rt: HostRuntime) -> Result<(), Fail> {
    scene(
        &rt,
        rt.alloc(),
        &[0xD3, 0x38, 0xDB, 0x38],
        &[Given::A(0x01), Given::Shows(BASES)],
        &[
            Then::Goes(4, 10, 0x1236, Mode::Running),
            Then::Sees(Seen::Sent(Some(Sent {
                port: 0x0138,
                byte: 0x01,
            }))),
            Then::Sees(Seen::Cbr(0x7C)),
            Then::Goes(3, 9, 0x1238, Mode::Running),
            Then::Sees(Seen::Read(Some(0x0138))),
            Then::Sees(Seen::A(0x99)),
        ],
    )
}

// With A = 0 the port is CBR.
#[test]
fn with_a_zero_the_port_is_cbr(rt: HostRuntime) -> Result<(), Fail> {
    scene(
        &rt,
        rt.alloc(),
        &[0xDB, 0x38, 0xAF, 0xD3, 0x38],
        &[Given::A(0x00), Given::Shows(BASES)],
        &[
            Then::Goes(3, 9, 0x1236, Mode::Running),
            Then::Sees(Seen::A(0x7C)),
            Then::Goes(2, 4, 0x1237, Mode::Running),
            Then::Goes(4, 10, 0x1239, Mode::Running),
            Then::Sees(Seen::Cbr(0x00)),
            Then::Sees(Seen::Sent(None)),
            Then::Sees(Seen::Read(None)),
        ],
    )
}

// OUT0 (38H),A and IN0 A,(38H).
#[test]
fn zero_is_the_upper_half(rt: HostRuntime) -> Result<(), Fail> {
    scene(
        &rt,
        rt.alloc(),
        &[0xED, 0x39, 0x38, 0xED, 0x38, 0x38],
        &[Given::A(0xC1), Given::Shows(BASES)],
        &[
            Then::Goes(5, 13, 0x1237, Mode::Running),
            Then::Sees(Seen::Cbr(0x41)),
            Then::Sees(Seen::Sent(None)),
            Then::Goes(4, 12, 0x123A, Mode::Running),
            Then::Sees(Seen::A(0x41)),
            Then::Sees(Seen::Read(None)),
        ],
    )
}

// OUT0 (3FH),A with A = 40H moves the ports: then 38H is the panel's, and 78H is CBR.
#[test]
fn icr_moves_the_ports(rt: HostRuntime) -> Result<(), Fail> {
    scene(
        &rt,
        rt.alloc(),
        &[0xED, 0x39, 0x3F, 0xED, 0x39, 0x38, 0xED, 0x39, 0x78],
        &[Given::A(0x40), Given::Shows(BASES)],
        &[
            Then::Goes(5, 13, 0x1237, Mode::Running),
            Then::Sees(Seen::Icr(0x5F)),
            Then::Sees(Seen::Sent(None)),
            Then::Goes(5, 13, 0x123A, Mode::Running),
            Then::Sees(Seen::Sent(Some(Sent {
                port: 0x0038,
                byte: 0x40,
            }))),
            Then::Sees(Seen::Cbr(0x7C)),
            Then::Goes(5, 13, 0x123D, Mode::Running),
            Then::Sees(Seen::Sent(Some(Sent {
                port: 0x0038,
                byte: 0x40,
            }))),
            Then::Sees(Seen::Cbr(0x40)),
        ],
    )
}

// IN0 of A, then OUT0, at one port.
fn ready_at<M: Memory>(m: &mut Machine<M, Probe>, icr: u8, port: u8) -> Result<(), Fail> {
    m.window = Window::RESET;
    m.cpu = Registers { icr, ..ready() };
    m.panel = silent();
    put(m, START, &[0xED, 0x38, port, 0xED, 0x39, port])
}

fn reached(rt: &impl Abort, panel: &Probe, port: u16) {
    let sent = Sent { port, byte: 0x99 };
    assert_eq!(rt; panel.last_read, Some(port));
    assert_eq!(rt; panel.last_write, Some(sent));
}

fn untouched(rt: &impl Abort, panel: &Probe) {
    assert_eq!(rt; panel.last_read, None);
    assert_eq!(rt; panel.last_write, None);
}

// A port is the processor's own if its bits 7 and 6 are those of ICR.
fn reaches<M: Memory>(
    rt: &impl Abort,
    m: &mut Machine<M, Probe>,
    icr: u8,
    port: u8,
) -> Result<(), Fail> {
    ready_at(m, icr, port)?;
    takes(
        rt,
        m,
        Cost {
            cycles: 4,
            states: 12,
        },
    );
    takes(
        rt,
        m,
        Cost {
            cycles: 5,
            states: 13,
        },
    );
    if port / 64 == icr / 64 {
        untouched(rt, &m.panel);
    } else {
        reached(rt, &m.panel, u16::from(port));
    }
    Ok(())
}

// For each ICR, 64 ports are the processor's own and 192 reach the panel.
#[test]
fn every_port_for_every_icr(rt: HostRuntime) -> Result<(), Fail> {
    let mut bytes = vec![in rt.alloc(); 0u8; 65_536]?;
    let mut m = banked(&mut bytes)?;
    for icr in [0x1F, 0x3F, 0x5F, 0x7F, 0x9F, 0xBF, 0xDF, 0xFF] {
        for port in 0..=255 {
            reaches(&rt, &mut m, icr, port)?;
        }
    }
    Ok(())
}
