// Boards, and how puts are laid into them.
ghost use Rattle.script.specs.Laid.{Lays, LaysAll, all_laid, blank, bytes_of, first_file, laid, laid_at};
ghost use Rattle.script.specs.Puts.{lie_within};
ghost use Rattle.script.specs.Shown.{put_of, what_of};
ghost use Rattle.std.specs.Prelude.{◌+◌, ◌≡◌, IfOk, Ok, drop, length, map, replicate, true, vec_items};

use crate::put::{Put, What, lie_within};
use crate::wrong::BadLine;
use std::alloc::{AllocError, Global};

// The bytes of a board of ROM and RAM: zeros.
pub fn blank_board(heap: Global, rom: u32, ram: u32) -> Result<Vec<u8>, AllocError>
    ensures { IfOk result (λ v. v.items ≡ blank rom ram) }
{
    vec![in heap; 0; rom as usize + ram as usize]
}

// These bytes, from an address on.
fn lay_bytes(board: &mut [u8], at: u32, bytes: &[u8])
    requires { lie_within (length board.old) at (length bytes.now) ≡ true }
    ensures { board.new ≡ laid_at at bytes.now board.old }
{
    if bytes.is_empty() {
        return;
    }
    let at = at as usize;
    board[at..at + bytes.len()].copy_from_slice(bytes);
}

// One byte many times, from an address on.
fn lay_byte(board: &mut [u8], at: u32, times: u32, byte: u8)
    requires { lie_within (length board.old) at times ≡ true }
    ensures { board.new ≡ laid_at at (replicate times byte) board.old }
{
    if times == 0 {
        return;
    }
    let at = at as usize;
    board[at..at + times as usize].fill(byte);
}

impl Put {
    // How many bytes it lays.
    fn size(&self, file: &[u8]) -> u64
        ensures { result ≡ length (bytes_of (what_of self.now.what) file.now) }
    {
        match &self.what {
            What::Bytes(bytes) => bytes.len() as u64,
            What::Fill { length, .. } => u64::from(*length),
            What::Image(_) => file.len() as u64,
        }
    }

    // Lays the bytes into a board, those of an image as they were read from its file; if they don't lie within, the line is
    // bad and the board as it was.
    pub fn lay(&self, board: &mut [u8], file: &[u8]) -> Result<(), BadLine>
        ensures { Lays result (laid (put_of self.now) file.now board.old) board.old board.new }
    {
        if !lie_within(board.len() as u64, self.at, self.size(file)) {
            return Err(BadLine::outside(self.line));
        }
        match &self.what {
            What::Bytes(bytes) => lay_bytes(board, self.at, bytes),
            What::Fill { length, byte } => lay_byte(board, self.at, *length, *byte),
            What::Image(_) => lay_bytes(board, self.at, file),
        }
        Ok(())
    }
}

// The file at a place, without bytes where there is none.
fn file_at(files: &[Vec<u8>], index: usize) -> &[u8]
    ensures { result.now ≡ first_file (drop index (map vec_items files.now)) }
{
    match files.get(index) {
        Some(file) => file.as_slice(),
        None => &[],
    }
}

// Lays puts one after the other, each with its file's bytes; the first bad line is named.
pub fn lay_all(board: &mut [u8], puts: &[Put], files: &[Vec<u8>]) -> Result<(), BadLine>
    ensures { LaysAll result (all_laid (Ok board.old) (map put_of puts.now) (map vec_items files.now)) board.new }
{
    for (index, put) in puts.iter().enumerate() {
        put.lay(board, file_at(files, index))?;
    }
    Ok(())
}
