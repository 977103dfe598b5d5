// Halted and asleep: time passes, and what wakes the card.
use crate::scene::*;
use panel::line::Line;
use registers::registers::Mode;
use std::test::Fail;

// HALT, idle steps that R does not count, then each line wakes the card and is served.
#[test]
fn out_of_halt(rt: HostRuntime) -> Result<(), Fail> {
    for (line, cycles, states, pc) in [
        (Line::Nmi, 3, 11, 0x0066),
        (Line::Int0, 3, 11, 0x0038),
        (Line::Int1, 5, 18, 0x5102),
        (Line::Int2, 5, 18, 0x5203),
    ] {
        scene(
            &rt,
            rt.alloc(),
            &[0x76],
            &[Given::Word(0x2040, 0x5102), Given::Word(0x2042, 0x5203)],
            &[
                Then::Goes(1, 3, 0x1235, Mode::Halted),
                Then::Goes(1, 3, 0x1235, Mode::Halted),
                Then::Goes(1, 3, 0x1235, Mode::Halted),
                Then::Sees(Seen::R(6)),
                Then::Asks(line),
                Then::Serves(line, cycles, states, pc),
            ],
        )?;
    }
    Ok(())
}

// SLP takes 8 states.
#[test]
fn out_of_sleep(rt: HostRuntime) -> Result<(), Fail> {
    for (line, cycles, states, pc) in [
        (Line::Nmi, 3, 11, 0x0066),
        (Line::Int0, 3, 11, 0x0038),
        (Line::Int1, 5, 18, 0x5102),
        (Line::Int2, 5, 18, 0x5203),
    ] {
        scene(
            &rt,
            rt.alloc(),
            &[0xED, 0x76],
            &[Given::Word(0x2040, 0x5102), Given::Word(0x2042, 0x5203)],
            &[
                Then::Goes(3, 8, 0x1236, Mode::Asleep),
                Then::Goes(1, 3, 0x1236, Mode::Asleep),
                Then::Sees(Seen::R(7)),
                Then::Asks(line),
                Then::Serves(line, cycles, states, pc),
            ],
        )?;
    }
    Ok(())
}

// Asleep with IEF1 = 0, an enabled line wakes the card: it executes LD A,n in that step and accepts nothing.
#[test]
fn sleep_with_interrupts_masked(rt: HostRuntime) -> Result<(), Fail> {
    for line in [Line::Int0, Line::Int1, Line::Int2] {
        scene(
            &rt,
            rt.alloc(),
            &[0xED, 0x76, 0x3E, 0x42],
            &[Given::Flips(false, true)],
            &[
                Then::Goes(3, 8, 0x1236, Mode::Asleep),
                Then::Goes(1, 3, 0x1236, Mode::Asleep),
                Then::Asks(line),
                Then::Goes(2, 6, 0x1238, Mode::Running),
                Then::Sees(Seen::A(0x42)),
                Then::Has(false, true),
                Then::Goes(1, 3, 0x1239, Mode::Running),
            ],
        )?;
    }
    Ok(())
}

// The next instruction may put it to sleep again, or halt it.
#[test]
fn asleep_again(rt: HostRuntime) -> Result<(), Fail> {
    scene(
        &rt,
        rt.alloc(),
        &[0xED, 0x76, 0xED, 0x76, 0x76],
        &[Given::Flips(false, false), Given::Asks(Line::Int1)],
        &[
            Then::Goes(3, 8, 0x1236, Mode::Asleep),
            Then::Goes(3, 8, 0x1238, Mode::Asleep),
            Then::Goes(1, 3, 0x1239, Mode::Halted),
            Then::Goes(1, 3, 0x1239, Mode::Halted),
        ],
    )
}

// A line that ITC does not enable wakes neither, whatever IEF1 is.
#[test]
fn a_disabled_line_wakes_nothing(rt: HostRuntime) -> Result<(), Fail> {
    for (line, itc, ief1, mode) in [
        (Line::Int0, 0x3E, false, Mode::Asleep),
        (Line::Int1, 0x3D, false, Mode::Asleep),
        (Line::Int2, 0x3B, false, Mode::Asleep),
        (Line::Int0, 0x3E, true, Mode::Asleep),
        (Line::Int1, 0x3D, true, Mode::Halted),
        (Line::Int2, 0x3B, true, Mode::Halted),
    ] {
        scene(
            &rt,
            rt.alloc(),
            &[],
            &[
                Given::Asks(line),
                Given::Itc(itc),
                Given::Flips(ief1, ief1),
                Given::Is(mode),
            ],
            &[
                Then::Goes(1, 3, 0x1234, mode),
                Then::Goes(1, 3, 0x1234, mode),
                Then::Has(ief1, ief1),
            ],
        )?;
    }
    Ok(())
}

// Halted with IEF1 = 0, no line but NMI wakes it.
#[test]
fn halt_with_interrupts_masked(rt: HostRuntime) -> Result<(), Fail> {
    scene(
        &rt,
        rt.alloc(),
        &[0x76],
        &[
            Given::Flips(false, false),
            Given::Asks(Line::Int0),
            Given::Asks(Line::Int1),
            Given::Asks(Line::Int2),
        ],
        &[
            Then::Goes(1, 3, 0x1235, Mode::Halted),
            Then::Goes(1, 3, 0x1235, Mode::Halted),
            Then::Asks(Line::Nmi),
            Then::Serves(Line::Nmi, 3, 11, 0x0066),
        ],
    )
}

// EI, then HALT: the line is accepted behind HALT, and comes back behind it.
#[test]
fn halt_behind_ei(rt: HostRuntime) -> Result<(), Fail> {
    scene(
        &rt,
        rt.alloc(),
        &[0xFB, 0x76],
        &[Given::Flips(false, false), Given::Asks(Line::Int0)],
        &[
            Then::Goes(1, 3, 0x1235, Mode::Running),
            Then::Goes(1, 3, 0x1236, Mode::Halted),
            Then::Serves(Line::Int0, 3, 11, 0x0038),
        ],
    )
}
