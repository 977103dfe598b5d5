// Boards at their boundary addresses.
use denial::{Denial, Layer};
use memory::Memory;
use memory::bank::Bank;
use memory::length::BoardLength;
use memory::rom_ram::RomRam;
use std::process::Abort;
use std::test::Fail;

// What each of some addresses reads as.
fn reads<M: Memory>(rt: &impl Abort, memory: &M, expected: &[(u32, Result<u8, Denial>)]) {
    for (at, answer) in expected {
        assert_eq!(rt; memory.read(*at), *answer);
    }
}

const BEYOND: Result<u8, Denial> = Err(Denial::AddressBeyondMemory);

#[test]
fn a_bank_ends_where_its_bytes_end(rt: HostRuntime) -> Result<(), Fail> {
    let mut bytes = [1, 2, 3];
    let size = BoardLength::of_bank(&bytes)?;
    let mut bank = Bank::new(&mut bytes, size);
    reads(
        &rt,
        &bank,
        &[
            (0, Ok(1)),
            (2, Ok(3)),
            (3, Ok(0xFF)),
            (524_287, Ok(0xFF)),
            (524_288, BEYOND),
        ],
    );
    assert_eq!(rt; bank.write(2, 9), Ok(()));
    assert_eq!(rt; bank.write(3, 9), Ok(()));
    assert_eq!(rt; bank.write(524_287, 9), Ok(()));
    assert_eq!(rt; bank.write(524_288, 9), Err(Denial::AddressBeyondMemory));
    reads(
        &rt,
        &bank,
        &[
            (0, Ok(1)),
            (1, Ok(2)),
            (2, Ok(9)),
            (3, Ok(0xFF)),
            (524_287, Ok(0xFF)),
        ],
    );
    Ok(())
}

#[test]
fn an_empty_bank_holds_ff_and_takes_nothing(rt: HostRuntime) -> Result<(), Fail> {
    let mut bytes = [0u8; 0];
    let size = BoardLength::of_bank(&bytes)?;
    let mut bank = Bank::new(&mut bytes, size);
    assert_eq!(rt; bank.write(0, 7), Ok(()));
    reads(
        &rt,
        &bank,
        &[(0, Ok(0xFF)), (524_287, Ok(0xFF)), (524_288, BEYOND)],
    );
    Ok(())
}

#[test]
fn a_bank_is_no_longer_than_its_size(rt: HostRuntime) -> Result<(), Fail> {
    let size = BoardLength::of_bank(&[0; 2])?;
    let mut bytes = [1, 2, 3];
    let mut bank = Bank::new(&mut bytes, size);
    assert_eq!(rt; bank.write(2, 9), Ok(()));
    reads(&rt, &bank, &[(1, Ok(2)), (2, Ok(0xFF))]);
    Ok(())
}

#[test]
fn the_longest_bank_is_made_and_one_byte_more_is_denied(rt: HostRuntime) -> Result<(), Fail> {
    let bytes = vec![in rt.alloc(); 5u8; 524_288]?;
    assert_eq!(rt; BoardLength::of_bank(&bytes)?.bytes(), 524_288);
    let bytes = vec![in rt.alloc(); 5u8; 524_289]?;
    let too_long = Denial::MemoryTooLong;
    assert_eq!(rt; BoardLength::of_bank(&bytes).err(), Some(too_long));
    assert_eq!(rt; (too_long.number(), too_long.layer()), (1, Layer::Making));
    Ok(())
}

#[test]
fn a_board_counts_both_parts(rt: HostRuntime) -> Result<(), Fail> {
    let rom = vec![in rt.alloc(); 0u8; 524_288]?;
    assert_eq!(rt; BoardLength::of_rom_ram(&rom, &[])?.bytes(), 524_288);
    assert_eq!(rt;
        BoardLength::of_rom_ram(&rom, &[0]).err(),
        Some(Denial::MemoryTooLong)
    );
    Ok(())
}

#[test]
fn rom_takes_no_writes_and_ram_behind_it_does(rt: HostRuntime) -> Result<(), Fail> {
    let rom = [1, 2];
    let mut ram = [3, 4];
    let size = BoardLength::of_rom_ram(&rom, &ram)?;
    let mut board = RomRam::new(&rom, &mut ram, size);
    for at in 0..5 {
        assert_eq!(rt; board.write(at, 9), Ok(()));
    }
    reads(
        &rt,
        &board,
        &[
            (0, Ok(1)),
            (1, Ok(2)),
            (2, Ok(9)),
            (3, Ok(9)),
            (4, Ok(0xFF)),
            (524_287, Ok(0xFF)),
            (524_288, BEYOND),
        ],
    );
    assert_eq!(rt; board.write(524_288, 9), Err(Denial::AddressBeyondMemory));
    Ok(())
}

#[test]
fn with_an_empty_rom_a_board_is_a_bank(rt: HostRuntime) -> Result<(), Fail> {
    let mut ram = [3, 4];
    let size = BoardLength::of_rom_ram(&[], &ram)?;
    let mut board = RomRam::new(&[], &mut ram, size);
    assert_eq!(rt; board.write(0, 9), Ok(()));
    reads(&rt, &board, &[(0, Ok(9)), (1, Ok(4)), (2, Ok(0xFF))]);
    Ok(())
}

#[test]
fn with_an_empty_ram_a_board_takes_nothing(rt: HostRuntime) -> Result<(), Fail> {
    let rom = [1];
    let mut ram = [0u8; 0];
    let size = BoardLength::of_rom_ram(&rom, &ram)?;
    let mut board = RomRam::new(&rom, &mut ram, size);
    assert_eq!(rt; board.write(0, 9), Ok(()));
    assert_eq!(rt; board.write(1, 9), Ok(()));
    reads(&rt, &board, &[(0, Ok(1)), (1, Ok(0xFF))]);
    Ok(())
}
