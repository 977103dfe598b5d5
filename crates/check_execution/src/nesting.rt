// The flip-flops through NMI, RETN and RETI.
use crate::scene::*;
use panel::line::Line;
use registers::registers::Mode;
use std::test::Fail;

// NMI saves IEF1 in IEF2, whatever that held, and RETN brings it back.
#[test]
fn retn_brings_ief1_back(rt: HostRuntime) -> Result<(), Fail> {
    for ief1 in [true, false] {
        scene(
            &rt,
            rt.alloc(),
            &[],
            &[
                Given::Asks(Line::Nmi),
                Given::Flips(ief1, !ief1),
                Given::Word(0x0066, 0x45ED),
            ],
            &[
                Then::Serves(Line::Nmi, 3, 11, 0x0066),
                Then::Has(false, ief1),
                Then::Goes(4, 12, 0x1234, Mode::Running),
                Then::Has(ief1, ief1),
            ],
        )?;
    }
    Ok(())
}

// INT1 is served at 5102H: NOP, EI, RETI. NMI comes behind the NOP, and is served by RETN. INT2, asked for all along, is
// accepted behind RETI, which EI delays it past.
#[test]
fn nmi_inside_int1(rt: HostRuntime) -> Result<(), Fail> {
    scene(
        &rt,
        rt.alloc(),
        &[],
        &[
            Given::Asks(Line::Int1),
            Given::Asks(Line::Int2),
            Given::Word(0x0066, 0x45ED),
            Given::Word(0x2040, 0x5102),
            Given::Word(0x2042, 0x5203),
            Given::Word(0x5102, 0xFB00),
            Given::Word(0x5104, 0x4DED),
        ],
        &[
            Then::Serves(Line::Int1, 5, 18, 0x5102),
            Then::Goes(1, 3, 0x5103, Mode::Running),
            Then::Asks(Line::Nmi),
            Then::Serves(Line::Nmi, 3, 11, 0x0066),
            Then::Goes(4, 12, 0x5103, Mode::Running),
            Then::Has(false, false),
            Then::Goes(1, 3, 0x5104, Mode::Running),
            Then::Has(true, true),
            Then::Goes(4, 12, 0x1234, Mode::Running),
            Then::Has(true, true),
            Then::Serves(Line::Int2, 5, 18, 0x5203),
        ],
    )
}

// RETI copies nothing.
#[test]
fn reti_leaves_the_flip_flops(rt: HostRuntime) -> Result<(), Fail> {
    scene(
        &rt,
        rt.alloc(),
        &[0xED, 0x4D],
        &[Given::Flips(false, true), Given::Word(0x8000, 0x4321)],
        &[
            Then::Goes(4, 12, 0x4321, Mode::Running),
            Then::Has(false, true),
        ],
    )
}
