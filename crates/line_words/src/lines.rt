//! The lines of a text, in order and with their numbers.

ghost use Rattle.std.specs.Prelude.{◌≡◌, ℕ, ◌+◌, ◌^◌, ◌<◌, ◌==◌, List, length, drop};
ghost use Rattle.std.specs.Iterator.{item_count, YieldsFirstBy};
ghost use Rattle.std.specs.List.{enumerate_from, position, position_or_len};
ghost use Rattle.line_words.specs.Lines.{lines_of, numbered_lines};

use std::marker::Model;

/// A line: its number, from 1 on, and its bytes without the line feed.
#[derive(Clone, Copy, Debug, Drop)]
pub struct Line<'a> {
    pub number: u64,
    pub bytes: &'a [u8],
}

/// The lines of a text that weren't given yet, in order. A clause sees the list of their numbers and bytes.
#[derive(Drop)]
pub struct Lines<'a> {
    rest: &'a [u8],
    given: u64,
}

impl<'a> Model for Lines<'a> {
    ghost Value = { List (ℕ × List ℕ) };

    ghost view = { λ lines. enumerate_from (lines.given + 1) (lines_of lines.rest.now) };

    ghost invariant = { λ lines. lines.given + length lines.rest.now < 2 ^ 64 };
}

impl<'a> Lines<'a> {
    /// All lines of the text, from line 1 on.
    pub fn new(text: &'a [u8]) -> Lines<'a>
        ensures { result ≡ numbered_lines text.now }
    {
        Lines {
            rest: text,
            given: 0,
        }
    }
}

impl<'a> Iterator for Lines<'a> {
    type Item = Line<'a>;

    ghost next_gives = { YieldsFirstBy (λ line. (line.number, line.bytes.now)) (λ rest. rest) };

    ghost remaining = { item_count (λ rest. rest) };

    /// The next line, or None at the end of the text. Linear in the line's bytes.
    fn next(&mut self) -> Option<Line<'a>> {
        if self.rest.is_empty() {
            return None;
        }
        let (bytes, rest) = self.rest.split_at(first_length(self.rest));
        self.rest = after_first(rest);
        self.given += 1;
        Some(Line {
            number: self.given,
            bytes,
        })
    }
}

// How many bytes there are before the first line feed, or all where there is none.
fn first_length(text: &[u8]) -> usize
    ensures { result ≡ position_or_len (λ byte. byte == 10) text.now }
{
    line_feed(text).unwrap_or(text.len())
}

// Where the first line feed is.
fn line_feed(text: &[u8]) -> Option<usize>
    ensures { result ≡ position (λ byte. byte == 10) text.now }
{
    text.iter().position(|byte| *byte == b'\n')
}

// The bytes after the first, if there is one.
fn after_first(text: &[u8]) -> &[u8]
    ensures { result.now ≡ drop 1 text.now }
{
    text.get(1..).unwrap_or(&[])
}
