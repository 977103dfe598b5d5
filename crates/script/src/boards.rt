// What a script says of the boards: their lengths, and what is put into them.
ghost use Rattle.script.specs.Boards.{no_boards, put_said, ram_bytes, ram_said, rom_bytes, rom_said, second_said, lengths_settled};
ghost use Rattle.script.specs.Shown.{Takes, boards_of, put_of};
ghost use Rattle.std.specs.Prelude.{◌≡◌, ◌+◌};

use crate::put::Put;
use crate::wrong::{Untaken, Wrong};
use std::alloc::{AllocError, Global};

#[derive(Drop)]
pub(crate) struct Boards {
    pub rom: Option<u32>,
    pub ram: Option<u32>,
    pub puts: Vec<Put>,
    // what is put into the second board alone
    pub second: Option<Vec<Put>>,
}

impl Boards {
    pub fn new(heap: Global) -> Boards
        ensures { boards_of result ≡ no_boards }
    {
        Boards {
            rom: None,
            ram: None,
            puts: Vec::new(heap),
            second: None,
        }
    }

    // Without a line of its own, none.
    pub fn rom_bytes(&self) -> u32
        ensures { result ≡ rom_bytes (boards_of self.now) }
    {
        self.rom.unwrap_or(0)
    }

    // Without a line of its own, as much as the card shows at once.
    pub fn ram_bytes(&self) -> u32
        ensures { result ≡ ram_bytes (boards_of self.now) }
    {
        self.ram.unwrap_or(65_536)
    }

    fn lengths_settled(&self) -> bool
        ensures { result ≡ lengths_settled (boards_of self.now) }
    {
        self.second.is_some() || !self.puts.is_empty()
    }

    pub fn rom(&mut self, length: u32) -> Result<(), Untaken>
        ensures { Takes result (rom_said (boards_of self.old) length) (boards_of self.new) }
    {
        if self.rom.is_some() {
            return Err(Untaken::Wrong(Wrong::RomTwice));
        }
        if self.lengths_settled() {
            return Err(Untaken::Wrong(Wrong::LengthLate));
        }
        self.rom = Some(length);
        Ok(())
    }

    pub fn ram(&mut self, length: u32) -> Result<(), Untaken>
        ensures { Takes result (ram_said (boards_of self.old) length) (boards_of self.new) }
    {
        if self.ram.is_some() {
            return Err(Untaken::Wrong(Wrong::RamTwice));
        }
        if self.lengths_settled() {
            return Err(Untaken::Wrong(Wrong::LengthLate));
        }
        self.ram = Some(length);
        Ok(())
    }

    pub fn put(&mut self, put: Put) -> Result<(), Untaken>
        ensures { Takes result (put_said (boards_of self.old) (put_of put)) (boards_of self.new) }
    {
        let board = u64::from(self.rom_bytes()) + u64::from(self.ram_bytes());
        if !put.fits(board) {
            return Err(Untaken::Wrong(Wrong::Outside));
        }
        match &mut self.second {
            Some(puts) => puts.push(put).map_err(AllocError::from)?,
            None => self.puts.push(put).map_err(AllocError::from)?,
        }
        Ok(())
    }

    // From here on puts are for the second board alone.
    pub fn second(&mut self, heap: Global) -> Result<(), Untaken>
        ensures { Takes result (second_said (boards_of self.old)) (boards_of self.new) }
    {
        if self.second.is_some() {
            return Err(Untaken::Wrong(Wrong::SecondTwice));
        }
        self.second = Some(Vec::new(heap));
        Ok(())
    }
}
