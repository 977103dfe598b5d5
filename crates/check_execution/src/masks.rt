// What keeps a line from being accepted.
use crate::scene::*;
use denial::Denial;
use panel::line::Line;
use registers::registers::Mode;
use std::test::Fail;

// With IEF1 = 0, or its bit of ITC 0, a line that is asked for leaves the step to the instruction.
#[test]
fn one_line_masked(rt: HostRuntime) -> Result<(), Fail> {
    for (line, ief1, itc) in [
        (Line::Int0, false, 0x3F),
        (Line::Int1, false, 0x3F),
        (Line::Int2, false, 0x3F),
        (Line::Int0, true, 0x3E),
        (Line::Int1, true, 0x3D),
        (Line::Int2, true, 0x3B),
    ] {
        scene(
            &rt,
            rt.alloc(),
            &[],
            &[Given::Asks(line), Given::Flips(ief1, true), Given::Itc(itc)],
            &[
                Then::Goes(1, 3, 0x1235, Mode::Running),
                Then::Has(ief1, true),
            ],
        )?;
    }
    Ok(())
}

// All three are asked for: ITC says which is the first. TRAP and UFO have no say.
#[test]
fn the_first_that_itc_enables(rt: HostRuntime) -> Result<(), Fail> {
    for (itc, line, cycles, states, pc) in [
        (0x39, Line::Int0, 3, 11, 0x0038),
        (0x3A, Line::Int1, 5, 18, 0x5102),
        (0x3B, Line::Int0, 3, 11, 0x0038),
        (0x3C, Line::Int2, 5, 18, 0x5203),
        (0x3D, Line::Int0, 3, 11, 0x0038),
        (0x3E, Line::Int1, 5, 18, 0x5102),
        (0xFF, Line::Int0, 3, 11, 0x0038),
    ] {
        scene(
            &rt,
            rt.alloc(),
            &[],
            &[
                Given::Asks(Line::Int0),
                Given::Asks(Line::Int1),
                Given::Asks(Line::Int2),
                Given::Itc(itc),
                Given::Word(0x2040, 0x5102),
                Given::Word(0x2042, 0x5203),
            ],
            &[Then::Serves(line, cycles, states, pc)],
        )?;
    }
    Ok(())
}

// NMI is masked by nothing, with ITC and the flip-flops 0.
#[test]
fn nothing_masks_nmi(rt: HostRuntime) -> Result<(), Fail> {
    scene(
        &rt,
        rt.alloc(),
        &[],
        &[
            Given::Asks(Line::Int0),
            Given::Asks(Line::Int1),
            Given::Asks(Line::Int2),
            Given::Flips(true, true),
            Given::Itc(0x38),
        ],
        &[
            Then::Goes(1, 3, 0x1235, Mode::Running),
            Then::Asks(Line::Nmi),
            Then::Serves(Line::Nmi, 3, 11, 0x0066),
            Then::Asks(Line::Nmi),
            Then::Serves(Line::Nmi, 3, 11, 0x0066),
        ],
    )
}

// EI, then one more instruction, then the line is accepted.
#[test]
fn ei_delays(rt: HostRuntime) -> Result<(), Fail> {
    scene(
        &rt,
        rt.alloc(),
        &[0xFB, 0x00],
        &[Given::Asks(Line::Int0), Given::Flips(false, false)],
        &[
            Then::Goes(1, 3, 0x1235, Mode::Running),
            Then::Has(true, true),
            Then::Goes(1, 3, 0x1236, Mode::Running),
            Then::Serves(Line::Int0, 3, 11, 0x0038),
        ],
    )
}

// Each EI of a row delays again; a denied step between does not count as the one more.
#[test]
fn ei_behind_ei_delays_again(rt: HostRuntime) -> Result<(), Fail> {
    scene(
        &rt,
        rt.alloc(),
        &[0xFB, 0xFB, 0xFB, 0x00],
        &[Given::Asks(Line::Int0), Given::Flips(false, false)],
        &[
            Then::Goes(1, 3, 0x1235, Mode::Running),
            Then::Goes(1, 3, 0x1236, Mode::Running),
            Then::Goes(1, 3, 0x1237, Mode::Running),
            Then::Fills(true),
            Then::Denies(Denial::PanelFull),
            Then::Fills(false),
            Then::Goes(1, 3, 0x1238, Mode::Running),
            Then::Serves(Line::Int0, 3, 11, 0x0038),
        ],
    )
}

// DI right behind EI lets nothing in.
#[test]
fn di_behind_ei(rt: HostRuntime) -> Result<(), Fail> {
    scene(
        &rt,
        rt.alloc(),
        &[0xFB, 0xF3],
        &[Given::Asks(Line::Int0), Given::Flips(false, false)],
        &[
            Then::Goes(1, 3, 0x1235, Mode::Running),
            Then::Goes(1, 3, 0x1236, Mode::Running),
            Then::Has(false, false),
            Then::Goes(1, 3, 0x1237, Mode::Running),
        ],
    )
}

#[test]
fn nmi_right_behind_ei(rt: HostRuntime) -> Result<(), Fail> {
    scene(
        &rt,
        rt.alloc(),
        &[0xFB],
        &[Given::Asks(Line::Int0), Given::Flips(false, false)],
        &[
            Then::Goes(1, 3, 0x1235, Mode::Running),
            Then::Asks(Line::Nmi),
            Then::Serves(Line::Nmi, 3, 11, 0x0066),
            Then::Has(false, true),
        ],
    )
}
