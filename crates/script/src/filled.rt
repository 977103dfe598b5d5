// The boards of a script, filled.
ghost use Rattle.script.specs.Filled.{filled, filled_of, first_filled};
ghost use Rattle.script.specs.Laid.{all_laid};
ghost use Rattle.script.specs.Shown.{Reads, put_of, shown};
ghost use Rattle.std.specs.Prelude.{◌≡◌, Ok, drop, map, vec_items};

use crate::assembled::Script;
use crate::laying::{blank_board, lay_all};
use crate::put::Put;
use crate::wrong::Refused;
use std::alloc::Global;

#[derive(Debug, Drop)]
pub struct Filled {
    pub first: Vec<u8>,
    pub second: Option<Vec<u8>>,
}

// A board that begins as another.
fn board_from(
    heap: Global,
    board: &[u8],
    puts: &[Put],
    files: &[Vec<u8>],
) -> Result<Vec<u8>, Refused>
    ensures { Reads vec_items result (all_laid (Ok board.now) (map put_of puts.now) (map vec_items files.now)) }
{
    let mut board = Vec::from_slice(heap, board)?;
    lay_all(board.as_mut_slice(), puts, files)?;
    Ok(board)
}

// The files from a place on.
fn files_from(files: &[Vec<u8>], place: usize) -> &[Vec<u8>]
    ensures { map vec_items result.now ≡ drop place (map vec_items files.now) }
{
    &files[place.min(files.len())..]
}

impl Script {
    fn first_board(&self, heap: Global, files: &[Vec<u8>]) -> Result<Vec<u8>, Refused>
        ensures { Reads vec_items result (first_filled (shown self.now) (map vec_items files.now)) }
    {
        let blank = blank_board(heap, self.rom, self.ram)?;
        board_from(heap, blank.as_slice(), self.puts.as_slice(), files)
    }

    // Both boards: a file for each put, in order, without bytes for a put that names none; those of the second board stand
    // behind the others.
    pub fn boards(&self, heap: Global, files: &[Vec<u8>]) -> Result<Filled, Refused>
        ensures { Reads filled_of result (filled (shown self.now) (map vec_items files.now)) }
    {
        let first = self.first_board(heap, files)?;
        let second = match &self.second {
            Some(puts) => {
                let files = files_from(files, self.puts.len());
                Some(board_from(heap, first.as_slice(), puts.as_slice(), files)?)
            }
            None => None,
        };
        Ok(Filled { first, second })
    }
}
