// Piles of plugs, in both orders and on either board.
use denial::Denial;
use memory::Memory;
use memory::bank::Bank;
use memory::length::BoardLength;
use memory::rom_ram::RomRam;
use plugs::entry::{Page, PatchEntry};
use plugs::patch::Patch;
use plugs::protect::Protect;
use std::process::Abort;
use std::test::Fail;

const PAGES: [Page; 1] = [Page { number: 1 }];

const PATCHES: [PatchEntry; 2] = [
    PatchEntry {
        address: 0,
        byte: 0x11,
    },
    PatchEntry {
        address: 4097,
        byte: 0x22,
    },
];

// `let .. else` stands before it; tried: map_err and `?`, behind which the borrow check covers no plug over a loan.
fn denied<T>() -> Result<T, Fail> {
    Err(Fail::new("the plug was denied"))
}

// Over a memory of two pages and more that holds zeros and takes writes from address 2 on: page 1 is protected, and the
// addresses 0 and 4097 are patched.
fn behaves<M: Memory + Drop>(rt: &impl Abort, mut pile: M) {
    for at in [0, 2, 4095, 4096, 4097, 8191, 8192] {
        assert_eq!(rt; pile.write(at, 9), Ok(()));
    }
    for (at, byte) in [
        (0, 0x11),
        (2, 9),
        (4095, 9),
        (4096, 0),
        (4097, 0x22),
        (8191, 0),
        (8192, 9),
    ] {
        assert_eq!(rt; pile.read(at), Ok(byte));
    }
    assert_eq!(rt; pile.read(524_288), Err(Denial::AddressBeyondMemory));
    assert_eq!(rt; pile.write(524_288, 9), Err(Denial::AddressBeyondMemory));
}

#[test]
fn a_patch_over_a_protected_bank(rt: HostRuntime) -> Result<(), Fail> {
    let mut bytes = vec![in rt.alloc(); 0u8; 12_288]?;
    let size = BoardLength::of_bank(&bytes)?;
    let bank = Bank::new(&mut bytes, size);
    let Ok(below) = Protect::new(bank, &PAGES) else {
        return denied();
    };
    let Ok(pile) = Patch::new(below, &PATCHES) else {
        return denied();
    };
    behaves(&rt, pile);
    Ok(())
}

#[test]
fn a_protect_plug_over_a_patched_board(rt: HostRuntime) -> Result<(), Fail> {
    let rom = [0; 2];
    let mut ram = vec![in rt.alloc(); 0u8; 12_288]?;
    let size = BoardLength::of_rom_ram(&rom, &ram)?;
    let board = RomRam::new(&rom, &mut ram, size);
    let Ok(below) = Patch::new(board, &PATCHES) else {
        return denied();
    };
    let Ok(pile) = Protect::new(below, &PAGES) else {
        return denied();
    };
    behaves(&rt, pile);
    Ok(())
}

#[test]
fn of_two_patch_plugs_the_upper_one_is_seen(rt: HostRuntime) -> Result<(), Fail> {
    let mut bytes = [0; 8];
    let size = BoardLength::of_bank(&bytes)?;
    let bank = Bank::new(&mut bytes, size);
    let lower = [
        PatchEntry {
            address: 0,
            byte: 1,
        },
        PatchEntry {
            address: 1,
            byte: 2,
        },
    ];
    let upper = [PatchEntry {
        address: 1,
        byte: 3,
    }];
    let Ok(below) = Patch::new(bank, &lower) else {
        return denied();
    };
    let Ok(pile) = Patch::new(below, &upper) else {
        return denied();
    };
    assert_eq!(rt; pile.read(0), Ok(1));
    assert_eq!(rt; pile.read(1), Ok(3));
    assert_eq!(rt; pile.into_below().read(1), Ok(2));
    Ok(())
}
