// Steps that are denied, and change nothing.
use crate::scene::*;
use denial::Denial;
use panel::line::Line;
use registers::registers::{InterruptMode, Mode};
use std::test::Fail;

const RESTARTS: [u8; 8] = [0xC7, 0xCF, 0xD7, 0xDF, 0xE7, 0xEF, 0xF7, 0xFF];

// INT0 in mode 0 with each of the 248 bytes that are no restart, again and again until the panel gives up asking.
#[test]
fn no_restart(rt: HostRuntime) -> Result<(), Fail> {
    let other = |byte: &u8| !RESTARTS.contains(byte);
    assert_eq!(rt; (0..=255).filter(other).count(), 248);
    for byte in (0..=255).filter(other) {
        scene(
            &rt,
            rt.alloc(),
            &[],
            &[
                Given::Asks(Line::Int0),
                Given::Im(InterruptMode::Zero),
                Given::Gives(byte),
            ],
            &[
                Then::Denies(Denial::NoRestartByte),
                Then::Denies(Denial::NoRestartByte),
                Then::Drops(Line::Int0),
                Then::Goes(1, 3, 0x1235, Mode::Running),
            ],
        )?;
    }
    Ok(())
}

// It stays halted, or asleep, and the panel is full first of all.
#[test]
fn no_restart_while_idle(rt: HostRuntime) -> Result<(), Fail> {
    for mode in [Mode::Halted, Mode::Asleep] {
        scene(
            &rt,
            rt.alloc(),
            &[],
            &[
                Given::Asks(Line::Int0),
                Given::Im(InterruptMode::Zero),
                Given::Gives(0xC9),
                Given::Is(mode),
                Given::Full,
            ],
            &[
                Then::Denies(Denial::PanelFull),
                Then::Fills(false),
                Then::Denies(Denial::NoRestartByte),
                Then::Drops(Line::Int0),
                Then::Goes(1, 3, 0x1234, mode),
            ],
        )?;
    }
    Ok(())
}

// The byte does not matter while INT0 is masked.
#[test]
fn the_byte_does_not_matter(rt: HostRuntime) -> Result<(), Fail> {
    for (itc, ief1) in [(0x3E, true), (0x3F, false)] {
        scene(
            &rt,
            rt.alloc(),
            &[],
            &[
                Given::Asks(Line::Int0),
                Given::Gives(0xC9),
                Given::Im(InterruptMode::Zero),
                Given::Itc(itc),
                Given::Flips(ief1, false),
            ],
            &[
                Then::Goes(1, 3, 0x1235, Mode::Running),
                Then::Asks(Line::Nmi),
                Then::Serves(Line::Nmi, 3, 11, 0x0066),
            ],
        )?;
    }
    Ok(())
}

// NMI comes before an INT0 that would be denied; behind it IEF1 is 0.
#[test]
fn nmi_before_a_denial(rt: HostRuntime) -> Result<(), Fail> {
    scene(
        &rt,
        rt.alloc(),
        &[],
        &[
            Given::Asks(Line::Int0),
            Given::Asks(Line::Nmi),
            Given::Im(InterruptMode::Zero),
            Given::Gives(0x00),
        ],
        &[
            Then::Serves(Line::Nmi, 3, 11, 0x0066),
            Then::Goes(1, 3, 0x0067, Mode::Running),
        ],
    )
}

// While the panel is full nothing is done, whatever would be: an instruction, idling, waking, or a line.
#[test]
fn full(rt: HostRuntime) -> Result<(), Fail> {
    for (mode, ief1, line) in [
        (Mode::Running, true, Line::Nmi),
        (Mode::Running, true, Line::Int0),
        (Mode::Running, false, Line::Int0),
        (Mode::Halted, false, Line::Nmi),
        (Mode::Halted, true, Line::Int1),
        (Mode::Asleep, false, Line::Int2),
        (Mode::Asleep, true, Line::Nmi),
    ] {
        scene(
            &rt,
            rt.alloc(),
            &[0x3E, 0x42],
            &[
                Given::Asks(line),
                Given::Flips(ief1, true),
                Given::Is(mode),
                Given::Full,
            ],
            &[
                Then::Denies(Denial::PanelFull),
                Then::Drops(line),
                Then::Denies(Denial::PanelFull),
            ],
        )?;
    }
    Ok(())
}
