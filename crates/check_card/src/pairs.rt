// The same log on two makes of memory. The window of these logs opens on pages 0 to 15.
use crate::cards::{pc_is, quiet};
use answers::call::Call;
use card_log::pair::replay_pair;
use card_log::served::ReplayedPair;
use memory::Memory;
use memory::bank::Bank;
use memory::length::BoardLength;
use memory::rom_ram::RomRam;
use panel::Panel;
use panel::script::Script;
use plugs::entry::PatchEntry;
use plugs::patch::Patch;
use registers::window::Window;
use std::alloc::Global;
use std::process::Abort;
use std::test::Fail;

// Page 16 is looked at nowhere, page 15 in lines 3 and 5.
const LINES: [Call; 7] = [
    Call::Step,
    Call::Run(100),
    Call::Look(Window::RESET, 0, 16),
    Call::Look(Window::RESET, 0xFFFE, 1),
    Call::Reset,
    Call::Look(Window::RESET, 0xFFFE, 2),
    Call::Step,
];

fn whole<M: Memory, N: Memory>(rt: &impl Abort, pair: &ReplayedPair<M, N, Script>) {
    assert!(rt; pair.log.complete);
    assert_eq!(rt; pair.log.served, 7);
    assert_eq!(rt; pair.log.answers.len(), 7);
    assert_eq!(rt; pair.log.others.len(), 7);
    pc_is(rt, &pair.first, 1);
    pc_is(rt, &pair.second, 1);
}

#[test]
fn pages_that_are_never_opened(rt: HostRuntime) -> Result<(), Fail> {
    let heap = rt.alloc();
    let mut bytes = vec![in heap; 0u8; 69_632]?;
    let size = BoardLength::of_bank(&bytes)?;
    let bank = Bank::new(&mut bytes, size);
    let rom = vec![in heap; 0u8; 65_536]?;
    let mut ram = vec![in heap; 9u8; 4096]?;
    let both = BoardLength::of_rom_ram(&rom, &ram)?;
    let board = RomRam::new(&rom, &mut ram, both);
    let pair = replay_pair(heap, bank, board, quiet(heap), quiet(heap), &LINES);
    whole(&rt, &pair);
    assert_eq!(rt; pair.log.difference, None);
    // the memories differ all the same
    assert_eq!(rt; pair.first.read(65_536), Ok(0));
    assert_eq!(rt; pair.second.read(65_536), Ok(9));
    Ok(())
}

// A byte at an address is patched on the second card. Two handles, since one that ends the process gives no memory.
fn patched_at(rt: &impl Abort, heap: Global, address: u32, line: usize) -> Result<(), Fail> {
    let mut bytes = vec![in heap; 0u8; 65_536]?;
    let mut others = vec![in heap; 0u8; 65_536]?;
    let size = BoardLength::of_bank(&bytes)?;
    let bank = Bank::new(&mut bytes, size);
    let below = Bank::new(&mut others, size);
    // tried: map_err and `?`, behind which the borrow check covers no plug over a loan
    let Ok(patched) = Patch::new(below, &[PatchEntry { address, byte: 1 }]) else {
        return Err(Fail::new("the plug is denied"));
    };
    let pair = replay_pair(heap, bank, patched, quiet(heap), quiet(heap), &LINES);
    whole(rt, &pair);
    assert_eq!(rt; pair.log.difference, Some(line));
    Ok(())
}

#[test]
fn a_byte_in_a_mapped_page(rt: HostRuntime) -> Result<(), Fail> {
    patched_at(&rt, rt.alloc(), 0xFFFE, 3)?;
    patched_at(&rt, rt.alloc(), 0xFFFF, 5)?;
    // the run of line 1 meets LD BC,nn in place of NOP
    patched_at(&rt, rt.alloc(), 15, 1)
}
