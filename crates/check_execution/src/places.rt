// Where bytes are read and written: borders of the window, the end of memory, boards that take no writes; and R.
use crate::card::*;
use crate::scene::*;
use memory::length::BoardLength;
use memory::rom_ram::RomRam;
use registers::registers::Mode;
use registers::window::Window;
use std::test::Fail;

// LD HL,(3FFFH) reads 03FFFH, then 24000H.
#[test]
fn a_read_across_a_border(rt: HostRuntime) -> Result<(), Fail> {
    let window = Window {
        cbar: 0x84,
        cbr: 0x7C,
        bbr: 0x20,
    };
    scene(
        &rt,
        rt.alloc(),
        &[0x2A, 0xFF, 0x3F],
        &[
            Given::Shows(window),
            Given::Cell(0x0_3FFF, 0x56),
            Given::Cell(0x2_4000, 0x34),
            Given::Cell(0x0_4000, 0x99),
        ],
        &[
            Then::Goes(5, 15, 0x1237, Mode::Running),
            Then::Sees(Seen::Hl(0x34, 0x56)),
        ],
    )
}

// LD (FFFFH),HL writes L at FFFFH and H at 0000H.
#[test]
fn a_write_across_the_end(rt: HostRuntime) -> Result<(), Fail> {
    scene(
        &rt,
        rt.alloc(),
        &[0x22, 0xFF, 0xFF],
        &[Given::Hl(0x34, 0x56)],
        &[
            Then::Goes(6, 16, 0x1237, Mode::Running),
            Then::Sees(Seen::Word(0xFFFF, 0x3456)),
            Then::Sees(Seen::Word(0x0000, 0x0034)),
        ],
    )
}

// PUSH HL with SP 0001H.
#[test]
fn a_push_across_the_end(rt: HostRuntime) -> Result<(), Fail> {
    scene(
        &rt,
        rt.alloc(),
        &[0xE5],
        &[Given::Hl(0x34, 0x56), Given::Sp(0x0001)],
        &[
            Then::Goes(4, 11, 0x1235, Mode::Running),
            Then::Sees(Seen::Sp(0xFFFF)),
            Then::Sees(Seen::Word(0xFFFF, 0x3456)),
            Then::Sees(Seen::Word(0x0000, 0x0034)),
        ],
    )
}

// R counts in seven bits and keeps the eighth, which LD R,A sets.
#[test]
fn the_eighth_bit_of_r(rt: HostRuntime) -> Result<(), Fail> {
    scene(
        &rt,
        rt.alloc(),
        &[0x00, 0xED, 0x4F, 0x00, 0x00, 0xED, 0x5F],
        &[Given::R(0x7F), Given::A(0xFE)],
        &[
            Then::Goes(1, 3, 0x1235, Mode::Running),
            Then::Sees(Seen::R(0x00)),
            Then::Goes(2, 6, 0x1237, Mode::Running),
            Then::Sees(Seen::R(0xFE)),
            Then::Goes(1, 3, 0x1238, Mode::Running),
            Then::Sees(Seen::R(0xFF)),
            Then::Goes(1, 3, 0x1239, Mode::Running),
            Then::Sees(Seen::R(0x80)),
            Then::Goes(2, 6, 0x123B, Mode::Running),
            Then::Sees(Seen::A(0x82)),
        ],
    )
}

// LD (0002H),HL across the end of ROM: the byte in ROM stays, and the one in RAM is written.
#[test]
fn rom_stays(rt: HostRuntime) -> Result<(), Fail> {
    let rom = [0x22, 0x02, 0x00];
    let mut ram = [0x77, 0x78];
    let size = BoardLength::of_rom_ram(&rom, &ram)?;
    let mut m = card(RomRam::new(&rom, &mut ram, size));
    play(
        &rt,
        &mut m,
        &[Given::Pc(0), Given::Hl(0x34, 0x56)],
        &[
            Then::Goes(6, 16, 3, Mode::Running),
            Then::Sees(Seen::Word(0, 0x0222)),
            Then::Sees(Seen::Word(2, 0x3400)),
            Then::Sees(Seen::Word(4, 0xFF78)),
        ],
    )
}

// LD (0003H),HL on a bank of four bytes: the byte behind its end is dropped.
#[test]
fn behind_the_bank(rt: HostRuntime) -> Result<(), Fail> {
    let mut bytes = [0x22, 0x03, 0x00, 0x77];
    let mut m = banked(&mut bytes)?;
    play(
        &rt,
        &mut m,
        &[Given::Pc(0), Given::Hl(0x34, 0x56)],
        &[
            Then::Goes(6, 16, 3, Mode::Running),
            Then::Sees(Seen::Word(0, 0x0322)),
            Then::Sees(Seen::Word(2, 0x5600)),
            Then::Sees(Seen::Word(4, 0xFFFF)),
        ],
    )
}
