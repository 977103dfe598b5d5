// The lines of a text.
ghost use Rattle.script.specs.Script.{lines_of};
ghost use Rattle.std.specs.Prelude.{◌<◌, ◌≡◌, ◌∷◌, length, nat_eq, position};

fn line_feed(text: &[u8]) -> Option<usize>
    ensures { result ≡ position (λ c. nat_eq c 10) text.now }
{
    text.iter().position(|c| *c == b'\n')
}

// The first line, without its line feed, and what stands behind it.
pub(crate) fn first_line(text: &[u8]) -> (&[u8], &[u8])
    requires { 0 < length text.now }
    ensures lines { lines_of text.now ≡ result.0.now ∷ lines_of result.1.now }
    ensures shorter { length result.1.now < length text.now }
{
    match line_feed(text) {
        Some(end) => (&text[..end], &text[end + 1..]),
        None => (text, &[]),
    }
}
