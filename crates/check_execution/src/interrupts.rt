// How each line is served.
use crate::scene::*;
use panel::line::Line;
use registers::registers::{InterruptMode, Mode};
use std::test::Fail;

#[test]
fn each_line_alone(rt: HostRuntime) -> Result<(), Fail> {
    for (line, cycles, states, pc) in [
        (Line::Nmi, 3, 11, 0x0066),
        (Line::Int0, 3, 11, 0x0038),
        (Line::Int1, 5, 18, 0x5102),
        (Line::Int2, 5, 18, 0x5203),
    ] {
        scene(
            &rt,
            rt.alloc(),
            &[],
            &[
                Given::Asks(line),
                Given::Word(0x2040, 0x5102),
                Given::Word(0x2042, 0x5203),
            ],
            &[Then::Serves(line, cycles, states, pc)],
        )?;
    }
    Ok(())
}

#[test]
fn a_restart_in_mode_0(rt: HostRuntime) -> Result<(), Fail> {
    for (byte, pc) in [
        (0xC7, 0x00),
        (0xCF, 0x08),
        (0xD7, 0x10),
        (0xDF, 0x18),
        (0xE7, 0x20),
        (0xEF, 0x28),
        (0xF7, 0x30),
        (0xFF, 0x38),
    ] {
        scene(
            &rt,
            rt.alloc(),
            &[],
            &[
                Given::Asks(Line::Int0),
                Given::Im(InterruptMode::Zero),
                Given::Gives(byte),
            ],
            &[Then::Serves(Line::Int0, 3, 11, pc)],
        )?;
    }
    Ok(())
}

// The byte may be odd, and the two bytes of the address may lie on both sides of FFFFH.
#[test]
fn by_the_table_in_mode_2(rt: HostRuntime) -> Result<(), Fail> {
    for (i, byte, at) in [
        (0x00, 0x40, 0x0040),
        (0x20, 0x10, 0x2010),
        (0x20, 0xFF, 0x20FF),
        (0x35, 0xC9, 0x35C9),
        (0xFF, 0xFF, 0xFFFF),
    ] {
        scene(
            &rt,
            rt.alloc(),
            &[],
            &[
                Given::Asks(Line::Int0),
                Given::Im(InterruptMode::Two),
                Given::I(i),
                Given::Gives(byte),
                Given::Word(at, 0x5634),
            ],
            &[Then::Serves(Line::Int0, 5, 18, 0x5634)],
        )?;
    }
    Ok(())
}

// INT1 and INT2 take no heed of the mode or of the panel's byte.
#[test]
fn by_the_table_at_il(rt: HostRuntime) -> Result<(), Fail> {
    for (line, im, i, il, at) in [
        (Line::Int1, InterruptMode::Zero, 0x20, 0x00, 0x2000),
        (Line::Int1, InterruptMode::One, 0x21, 0x60, 0x2160),
        (Line::Int1, InterruptMode::Two, 0xFF, 0xE0, 0xFFE0),
        (Line::Int2, InterruptMode::Zero, 0x20, 0x00, 0x2002),
        (Line::Int2, InterruptMode::One, 0x21, 0x60, 0x2162),
        (Line::Int2, InterruptMode::Two, 0xFF, 0xE0, 0xFFE2),
    ] {
        scene(
            &rt,
            rt.alloc(),
            &[],
            &[
                Given::Asks(line),
                Given::Im(im),
                Given::I(i),
                Given::Il(il),
                Given::Word(at, 0x5634),
            ],
            &[Then::Serves(line, 5, 18, 0x5634)],
        )?;
    }
    Ok(())
}

// With the stack over the table, what is read is the address that was pushed.
#[test]
fn the_table_is_read_after_the_push(rt: HostRuntime) -> Result<(), Fail> {
    for (line, sp) in [
        (Line::Int0, 0x2012),
        (Line::Int1, 0x2042),
        (Line::Int2, 0x2044),
    ] {
        scene(
            &rt,
            rt.alloc(),
            &[],
            &[
                Given::Asks(line),
                Given::Im(InterruptMode::Two),
                Given::Sp(sp),
            ],
            &[Then::Serves(line, 5, 18, 0x1234)],
        )?;
    }
    Ok(())
}

// All lines are asked for, and each is dropped when it is acknowledged. Where each is served stands EI, then a NOP.
#[test]
fn the_order_of_acceptance(rt: HostRuntime) -> Result<(), Fail> {
    scene(
        &rt,
        rt.alloc(),
        &[],
        &[
            Given::Asks(Line::Int2),
            Given::Asks(Line::Int1),
            Given::Asks(Line::Int0),
            Given::Asks(Line::Nmi),
            Given::Word(0x0066, 0x00FB),
            Given::Word(0x0038, 0x00FB),
            Given::Word(0x5102, 0x00FB),
            Given::Word(0x2040, 0x5102),
            Given::Word(0x2042, 0x5203),
        ],
        &[
            Then::Serves(Line::Nmi, 3, 11, 0x0066),
            Then::Goes(1, 3, 0x0067, Mode::Running),
            Then::Goes(1, 3, 0x0068, Mode::Running),
            Then::Serves(Line::Int0, 3, 11, 0x0038),
            Then::Goes(1, 3, 0x0039, Mode::Running),
            Then::Goes(1, 3, 0x003A, Mode::Running),
            Then::Serves(Line::Int1, 5, 18, 0x5102),
            Then::Goes(1, 3, 0x5103, Mode::Running),
            Then::Goes(1, 3, 0x5104, Mode::Running),
            Then::Serves(Line::Int2, 5, 18, 0x5203),
        ],
    )
}

// NMI that is still asked for is accepted again and again; INT0 is not, since IEF1 is 0.
#[test]
fn a_line_that_stays(rt: HostRuntime) -> Result<(), Fail> {
    scene(
        &rt,
        rt.alloc(),
        &[],
        &[Given::Asks(Line::Int0), Given::Keeps],
        &[
            Then::Serves(Line::Int0, 3, 11, 0x0038),
            Then::Goes(1, 3, 0x0039, Mode::Running),
            Then::Asks(Line::Nmi),
            Then::Serves(Line::Nmi, 3, 11, 0x0066),
            Then::Serves(Line::Nmi, 3, 11, 0x0066),
        ],
    )
}
