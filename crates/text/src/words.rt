// The words of a line.
ghost use Rattle.std.specs.Prelude.{◌≡◌, ◌==◌, map, IfOk, position};
ghost use Rattle.text.specs.Words.{before_comment, is_blank, words_of};

use std::alloc::{AllocError, Global};

fn is_blank(c: u8) -> bool
    ensures { result ≡ is_blank c }
{
    c == b' ' || c == b'\t' || c == b'\r'
}

fn comment(line: &[u8]) -> Option<usize>
    ensures { result ≡ position (λ c. c == 35) line.now }
{
    line.iter().position(|c| *c == b'#')
}

// What stands before a comment.
fn before_comment(line: &[u8]) -> &[u8]
    ensures { result.now ≡ before_comment line.now }
{
    match comment(line) {
        Some(at) => &line[..at],
        None => line,
    }
}

// The words of a line, without its comment.
pub fn words(heap: Global, line: &[u8]) -> Result<Vec<&[u8]>, AllocError>
    ensures { IfOk result (λ v. map (λ w. w.now) v.items ≡ words_of line.now) }
{
    before_comment(line)
        .split(|c| is_blank(*c))
        .filter(|word| !word.is_empty())
        .collect(heap)
}
