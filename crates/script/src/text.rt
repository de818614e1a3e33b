ghost use Rattle.std.specs.Prelude.{◌≡◌, ◌-◌, ◌≤◌, [], length, slice_index_or};
ghost use Rattle.std.specs.Iterator.{YieldsFirstRef, item_count};
ghost use Rattle.std.specs.List.{position_or_len, prefix_len};
ghost use Rattle.script.specs.Text.{is_space, words, lines};

use std::marker::Model;

/// Whether a byte separates words: a space, a tab or a carriage return.
fn is_space(byte: u8) -> bool
    ensures { result ≡ is_space byte }
{
    matches!(byte, b' ' | b'\t' | b'\r')
}

/// How many spaces stand in front.
// A loop here and in `word_len`, since `position` takes up to half more time on many spaces and long words.
fn space_len(bytes: &[u8]) -> usize
    ensures { result ≡ prefix_len is_space bytes.now }
{
    for (n, byte) in bytes.iter().enumerate() {
        if !is_space(*byte) {
            return n;
        }
    }
    bytes.len()
}

/// How many bytes stand before the first space.
fn word_len(bytes: &[u8]) -> usize
    ensures { result ≡ position_or_len is_space bytes.now }
{
    for (n, byte) in bytes.iter().enumerate() {
        if is_space(*byte) {
            return n;
        }
    }
    bytes.len()
}

/// The words of a line that are still to be read, one after another.
// A type of its own: a reader keeps its words in a field, and a chain of `split` and `filter` has no name to write there.
#[derive(Debug, Drop)]
pub(crate) struct Words<'a> {
    rest: &'a [u8],
}

impl<'a> Model for Words<'a> {
    ghost use Rattle.std.specs.Prelude.{ℕ, List};
    ghost use Rattle.script.specs.Text.{words};

    ghost Value = { List (List ℕ) };

    ghost view = { λ s. words s.rest.now };
}

impl<'a> Words<'a> {
    /// The words of a line.
    pub(crate) fn of(line: &'a [u8]) -> Words<'a>
        ensures { result ≡ words line.now }
    {
        Words { rest: line }
    }
}

impl<'a> Iterator for Words<'a> {
    type Item = &'a [u8];

    ghost next_gives = { YieldsFirstRef (λ s. s) };

    ghost remaining = { item_count (λ s. s) };

    fn next(&mut self) -> Option<&'a [u8]> {
        // Most lines end with their last word, and many are empty.
        if self.rest.is_empty() {
            return None;
        }
        let (_, rest) = self.rest.split_at(space_len(self.rest));
        let (word, after) = rest.split_at(word_len(rest));
        self.rest = after;
        if word.is_empty() { None } else { Some(word) }
    }
}

/// The lines of a text that are still to be read, one after another.
// `split` would give one empty line more behind the last line feed.
#[derive(Debug, Drop)]
pub(crate) struct Lines<'a> {
    rest: &'a [u8],
}

impl<'a> Model for Lines<'a> {
    ghost use Rattle.std.specs.Prelude.{ℕ, List};
    ghost use Rattle.script.specs.Text.{lines};

    ghost Value = { List (List ℕ) };

    ghost view = { λ s. lines s.rest.now };
}

impl<'a> Lines<'a> {
    /// The lines of a text, which are no more than its bytes.
    #[tactic(auto, using(crate::proofs::Pieces::lines_few))]
    pub(crate) fn of(text: &'a [u8]) -> Lines<'a>
        ensures value { result ≡ lines text.now }
        ensures few { length result ≤ length text.now }
    {
        Lines { rest: text }
    }
}

impl<'a> Iterator for Lines<'a> {
    type Item = &'a [u8];

    ghost next_gives = { YieldsFirstRef (λ s. s) };

    ghost remaining = { item_count (λ s. s) };

    fn next(&mut self) -> Option<&'a [u8]> {
        if self.rest.is_empty() {
            return None;
        }
        let mut parts = self.rest.splitn(2, |b| *b == b'\n');
        let line = parts.next()?;
        self.rest = parts.next().unwrap_or(&[]);
        Some(line)
    }
}

/// The line of a number, from 1, and nothing where the text has fewer lines. For 0 it is the first.
pub fn line_at(text: &[u8], number: usize) -> &[u8]
    ensures { result.now ≡ slice_index_or (lines text.now) (number - 1) [] }
{
    Lines::of(text).nth(number.saturating_sub(1)).unwrap_or(&[])
}
