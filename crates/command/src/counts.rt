// Whether a command has as many words behind its name as it wants.
ghost use Rattle.command.specs.Counts.{first_word, five_words, no_word, one_word, optional_word, some_words, three_words, two_words, seen_first, seen_five, seen_one, seen_optional, seen_some, seen_three, seen_two};
ghost use Rattle.std.specs.Prelude.{◌≡◌, map};

use crate::form::Form;
use crate::wrong::Wrong;

pub(crate) fn none(form: Form, words: &[&[u8]]) -> Result<(), Wrong>
    ensures { result ≡ no_word form (map (λ w. w.now) words.now) }
{
    match words {
        [] => Ok(()),
        _ => Err(Wrong::Count(form)),
    }
}

pub(crate) fn one<'a>(form: Form, words: &[&'a [u8]]) -> Result<&'a [u8], Wrong>
    ensures { seen_one result ≡ one_word form (map (λ w. w.now) words.now) }
{
    match words {
        [a] => Ok(*a),
        _ => Err(Wrong::Count(form)),
    }
}

pub(crate) fn two<'a>(form: Form, words: &[&'a [u8]]) -> Result<(&'a [u8], &'a [u8]), Wrong>
    ensures { seen_two result ≡ two_words form (map (λ w. w.now) words.now) }
{
    match words {
        [a, b] => Ok((*a, *b)),
        _ => Err(Wrong::Count(form)),
    }
}

pub(crate) fn three<'a>(
    form: Form,
    words: &[&'a [u8]],
) -> Result<(&'a [u8], &'a [u8], &'a [u8]), Wrong>
    ensures { seen_three result ≡ three_words form (map (λ w. w.now) words.now) }
{
    match words {
        [a, b, c] => Ok((*a, *b, *c)),
        _ => Err(Wrong::Count(form)),
    }
}

pub(crate) fn five<'a>(
    form: Form,
    words: &[&'a [u8]],
) -> Result<(&'a [u8], &'a [u8], &'a [u8], &'a [u8], &'a [u8]), Wrong>
    ensures { seen_five result ≡ five_words form (map (λ w. w.now) words.now) }
{
    match words {
        [a, b, c, d, e] => Ok((*a, *b, *c, *d, *e)),
        _ => Err(Wrong::Count(form)),
    }
}

pub(crate) fn some<'b, 'a>(form: Form, words: &'b [&'a [u8]]) -> Result<&'b [&'a [u8]], Wrong>
    ensures { seen_some result ≡ some_words form (map (λ w. w.now) words.now) }
{
    if words.is_empty() {
        return Err(Wrong::Count(form));
    }
    Ok(words)
}

// The first word and those behind it.
pub(crate) fn first<'b, 'a>(
    form: Form,
    words: &'b [&'a [u8]],
) -> Result<(&'a [u8], &'b [&'a [u8]]), Wrong>
    ensures { seen_first result ≡ first_word form (map (λ w. w.now) words.now) }
{
    match words {
        [a, others @ ..] => Ok((*a, others)),
        _ => Err(Wrong::Count(form)),
    }
}

// A word that may be absent.
pub(crate) fn optional<'a>(form: Form, words: &[&'a [u8]]) -> Result<Option<&'a [u8]>, Wrong>
    ensures { seen_optional result ≡ optional_word form (map (λ w. w.now) words.now) }
{
    match words {
        [] => Ok(None),
        [a] => Ok(Some(*a)),
        _ => Err(Wrong::Count(form)),
    }
}
