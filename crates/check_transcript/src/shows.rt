// What cards show, after a run on them.
use card::card::Card;
use memory::Memory;
use memory::bank::Bank;
use memory::length::BoardLength;
use panel::chain::Chain;
use panel::record::Record;
use panel::script::Script;
use plugs::entry::PatchEntry;
use plugs::patch::Patch;
use std::alloc::Global;
use std::process::Abort;
use std::test::Fail;
use transcript::memory_line::memory_line;
use transcript::show::show;
use transcript::shown::Shown;

// LD A,05H; OUT0 (80H),A; HALT.
const DOT: [u8; 16] = [
    0x3E, 0x05, 0xED, 0x39, 0x80, 0x76, 0, 0, 0, 0, 0, 0, 0, 0, 0, 0,
];

// IN A,(83H); OUT (42H),A; HALT.
const ECHO: [u8; 16] = [
    0xDB, 0x83, 0xD3, 0x42, 0x76, 0, 0, 0, 0, 0, 0, 0, 0, 0, 0, 0,
];

fn chain(heap: Global) -> Result<Chain, Fail> {
    let table = vec![in heap; Record::default(); 64]?;
    Ok(Chain::new(table)?)
}

// What a card shows once it has run.
fn shows<M: Memory, P: Shown>(
    rt: &impl Abort,
    heap: Global,
    card: &mut Card<M, P>,
    expected: &str,
) -> Result<(), Fail> {
    let mut text = String::new(heap);
    card.run(1000)?;
    show(&mut text, card, 16)?;
    assert_eq!(rt; text.as_str(), expected);
    Ok(())
}

fn memory_is<M: Memory, P>(
    rt: &impl Abort,
    heap: Global,
    card: &Card<M, P>,
    length: usize,
    expected: &str,
) -> Result<(), Fail> {
    let mut text = String::new(heap);
    memory_line(&mut text, card, length)?;
    assert_eq!(rt; text.as_str(), expected);
    Ok(())
}

#[test]
fn a_chain_panel(rt: HostRuntime) -> Result<(), Fail> {
    let mut bytes = DOT;
    let size = BoardLength::of_bank(&bytes)?;
    let mut card = Card::new(Bank::new(&mut bytes, size), chain(rt.alloc())?);
    card.panel_mut().set_key(0xA5);
    shows(
        &rt,
        rt.alloc(),
        &mut card,
        "af=0500 bc=0000 de=0000 hl=0000 ix=0000 iy=0000 sp=0000 pc=0006\naf'=0000 bc'=0000 de'=0000 hl'=0000\ni=00 r=04 ief1=0 ief2=0 im=0 mode=halted ei=0\nil=00 itc=39 cbr=00 bbr=00 cbar=F0 icr=1F\nchain used=1 of=63 key=A5 latch=0\npen 1 0080 05 0\nmemory crc=404E4691\n",
    )
}

// The list has two bytes, of which one is read; the three instructions take 9, 10 and 3 states.
#[test]
fn a_script_panel(rt: HostRuntime) -> Result<(), Fail> {
    let mut bytes = ECHO;
    let size = BoardLength::of_bank(&bytes)?;
    let panel = Script::new(vec![in rt.alloc(); 7, 8]?, 1000, 0xC7);
    let mut card = Card::new(Bank::new(&mut bytes, size), panel);
    shows(
        &rt,
        rt.alloc(),
        &mut card,
        "af=0700 bc=0000 de=0000 hl=0000 ix=0000 iy=0000 sp=0000 pc=0005\naf'=0000 bc'=0000 de'=0000 hl'=0000\ni=00 r=03 ief1=0 ief2=0 im=0 mode=halted ei=0\nil=00 itc=39 cbr=00 bbr=00 cbar=F0 icr=1F\nscript read=1 of=2 told=22 acknowledged=0 last=0742:07\nmemory crc=B381DEEA\n",
    )
}

// The checksums are another program's.
#[test]
fn through_a_plug(rt: HostRuntime) -> Result<(), Fail> {
    let mut bytes = DOT;
    let size = BoardLength::of_bank(&bytes)?;
    let bank = Bank::new(&mut bytes, size);
    let Ok(patched) = Patch::new(
        bank,
        &[PatchEntry {
            address: 1,
            byte: 7,
        }],
    ) else {
        return Err(Fail::new("the plug is denied"));
    };
    let card = Card::new(patched, chain(rt.alloc())?);
    memory_is(&rt, rt.alloc(), &card, 16, "memory crc=E8C8F700\n")?;
    memory_is(&rt, rt.alloc(), &card, 9, "memory crc=B48FD897\n")?;
    memory_is(&rt, rt.alloc(), &card, 0, "memory crc=00000000\n")
}

// A board of three bytes, read as longer: behind its end it reads FFH, and from 524,288 on there is nothing.
#[test]
fn behind_the_board(rt: HostRuntime) -> Result<(), Fail> {
    let mut bytes = [1, 2, 3];
    let size = BoardLength::of_bank(&bytes)?;
    let card = Card::new(Bank::new(&mut bytes, size), chain(rt.alloc())?);
    memory_is(&rt, rt.alloc(), &card, 4, "memory crc=9C53D059\n")?;
    memory_is(&rt, rt.alloc(), &card, 524_288, "memory crc=F6356512\n")?;
    memory_is(&rt, rt.alloc(), &card, 524_289, "memory crc=F6356512\n")
}
