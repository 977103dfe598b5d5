// Words that are all of one kind: bytes, pages or patches.
ghost use Rattle.command.specs.Counts.{Word};
ghost use Rattle.command.specs.Reads.{Reads};
ghost use Rattle.command.specs.Words.{all_read, listed_byte, listed_page, listed_patch};
ghost use Rattle.command.specs.declared.wrong.Wrong.{Wrong};
ghost use Rattle.std.specs.Prelude.{◌≡◌, ◌==◌, map, position, vec_items, Result};

use crate::places::{address, byte};
use crate::unread::Unread;
use crate::wrong::{Place, Wrong};
use plugs::entry::{Page, PatchEntry};
use std::alloc::{AllocError, Global};

pub(crate) trait Listed: Copy {
    ghost listed: { Word → Result Self Wrong };

    fn read(word: &[u8]) -> Result<Self, Wrong>
        ensures { result ≡ Self.listed word.now };
}

impl Listed for u8 {
    ghost listed = { listed_byte };

    fn read(word: &[u8]) -> Result<u8, Wrong> {
        byte(Place::Hh, word)
    }
}

impl Listed for Page {
    ghost listed = { listed_page };

    fn read(word: &[u8]) -> Result<Page, Wrong> {
        let number = byte(Place::Page, word)?;
        Ok(Page { number })
    }
}

fn equals_sign(word: &[u8]) -> Option<usize>
    ensures { result ≡ position (λ c. c == 61) word.now }
{
    word.iter().position(|c| *c == b'=')
}

impl Listed for PatchEntry {
    ghost listed = { listed_patch };

    fn read(word: &[u8]) -> Result<PatchEntry, Wrong> {
        let at = equals_sign(word).ok_or(Wrong::NotAPatch)?;
        let address = address(&word[..at])?;
        let byte = byte(Place::Hh, &word[at + 1..])?;
        Ok(PatchEntry { address, byte })
    }
}

// What the words say, or what is wrong with the first that is.
pub(crate) fn all<T: Listed>(heap: Global, words: &[&[u8]]) -> Result<Vec<T>, Unread>
    ensures { Reads vec_items result (all_read T.Listed.listed (map (λ w. w.now) words.now)) }
{
    let mut all = Vec::new(heap);
    for word in words {
        all.push(T::read(word)?).map_err(AllocError::from)?;
    }
    Ok(all)
}
