// Lent bytes: the lender knows them by what was written to the board, and may touch them only when the board is done.
ghost use Rattle.memory.specs.Boards.{bank_run, bytes_of};
ghost use Rattle.std.specs.Prelude.{◌≡◌};

use memory::Memory;
use memory::bank::Bank;
use memory::length::BoardLength;
use std::test::Fail;

// Writes a byte through a bank over the lent bytes. They are then what the bank holds.
fn write_through(bytes: &mut [u8], size: BoardLength, at: u32, byte: u8)
    ensures { bytes.exit.now ≡ bank_run (bytes_of size) bytes.entry.now at byte }
{
    let mut bank = Bank::new(bytes, size);
    // a denied write leaves them too, as the contract has it
    let _ = bank.write(at, byte);
}

#[test]
fn what_is_written_to_a_bank_stands_in_the_lent_bytes(rt: HostRuntime) -> Result<(), Fail> {
    let mut bytes = [1, 2, 3];
    let size = BoardLength::of_bank(&bytes)?;
    write_through(&mut bytes, size, 1, 9);
    assert_eq!(rt; bytes, [1, 9, 3]);
    write_through(&mut bytes, size, 3, 9);
    write_through(&mut bytes, size, 524_288, 9);
    assert_eq!(rt; bytes, [1, 9, 3]);
    Ok(())
}

#[test]
fn the_loan_comes_back_with_what_the_board_held(rt: HostRuntime) -> Result<(), Fail> {
    let mut bytes = [1, 2, 3];
    let size = BoardLength::of_bank(&bytes)?;
    let mut bank = Bank::new(&mut bytes, size);
    bank.write(0, 7)?;
    let lent = bank.into_bytes();
    assert!(rt; lent.len() == 3);
    assert_eq!(rt; lent[0], 7);
    Ok(())
}

// The compiler holds the lender to it: touching the bytes before the bank's last use is refused.
#[test]
fn the_lender_has_the_bytes_back_after_the_last_use(rt: HostRuntime) -> Result<(), Fail> {
    let mut bytes = [1, 2, 3];
    let size = BoardLength::of_bank(&bytes)?;
    let mut bank = Bank::new(&mut bytes, size);
    bank.write(1, 7)?;
    bytes[0] = bytes[1];
    assert_eq!(rt; bytes, [7, 7, 3]);
    Ok(())
}
