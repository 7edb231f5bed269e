//! A text cut at its line feeds.
ghost use Rattle.std.specs.Prelude.{◌≡◌, ◌<◌, length};
ghost use Rattle.std.specs.Iterator.{YieldsFirstBy, item_count};
ghost use Rattle.journal.specs.Lines.{before, after, Placed, first_line, after_line, lines_of, lines_left};

/// The place of the first byte that is `mark`.
fn place(bytes: &[u8], mark: u8) -> Option<usize>
    ensures { Placed mark bytes.now result }
{
    bytes.iter().position(|byte| *byte == mark)
}

/// The bytes before the first that is `mark`, and those after it: all and none where none is.
pub(crate) fn cut(bytes: &[u8], mark: u8) -> (&[u8], &[u8])
    ensures before { result.0.now ≡ before mark bytes.now }
    ensures after { result.1.now ≡ after mark bytes.now }
    ensures shorter { 0 < length bytes.now → length result.1.now < length bytes.now }
{
    match place(bytes, mark) {
        Some(end) => (&bytes[..end], &bytes[end + 1..]),
        None => (bytes, &[]),
    }
}

/// The bytes before the first line feed, and those after it: all and none where there is no line feed.
pub fn first_line(text: &[u8]) -> (&[u8], &[u8])
    ensures line { result.0.now ≡ first_line text.now }
    ensures rest { result.1.now ≡ after_line text.now }
    ensures shorter { 0 < length text.now → length result.1.now < length text.now }
{
    cut(text, b'\n')
}

/// The lines of a text, one after another.
#[derive(Drop)]
pub struct Lines<'a> {
    rest: &'a [u8],
}

impl<'a> From<&'a [u8]> for Lines<'a> {
    ghost from_gives = { λ text lines. lines_left lines ≡ lines_of text.now };

    fn from(text: &'a [u8]) -> Lines<'a> {
        Lines { rest: text }
    }
}

impl<'a> Iterator for Lines<'a> {
    type Item = &'a [u8];

    ghost next_gives = { YieldsFirstBy (λ line. line.now) lines_left };

    ghost remaining = { item_count lines_left };

    fn next(&mut self) -> Option<&'a [u8]> {
        if self.rest.is_empty() {
            return None;
        }
        let (line, rest) = first_line(self.rest);
        self.rest = rest;
        Some(line)
    }
}
