//! The words of a line, one after the other, with their columns.

ghost use Rattle.std.specs.Prelude.{◌≡◌, ◌≤◌, ◌==◌, [], ◌∷◌, length, not, MatchOption};
ghost use Rattle.std.specs.List.{prefix_len};
ghost use Rattle.suite_base.specs.Words.{without_comment};
ghost use Rattle.scop_reader.specs.Lines.{words_of};

use crate::text_lines::TextLine;
use std::marker::Model;
use suite_base::next_word;

/// A word and the column of its first byte, from 1.
#[derive(Drop)]
pub struct TextWord<'a> {
    column: u32,
    bytes: &'a [u8],
}

impl<'a> Model for TextWord<'a> {
    ghost use Rattle.scop_reader.specs.Lines.{Word};

    ghost Value = { Word };

    ghost view = { λ w. record { column = w.column; bytes = w.bytes.now } };
}

impl<'a> TextWord<'a> {
    /// The column of the word's first byte, from 1.
    pub fn column(&self) -> u32
        ensures { result ≡ self.now.column }
    {
        self.column
    }

    /// The word.
    pub fn bytes(&self) -> &'a [u8]
        ensures { result.now ≡ self.now.bytes }
    {
        self.bytes
    }
}

/// The words of a line that are still to come.
#[derive(Drop)]
pub struct LineWords<'a> {
    line: &'a [u8],
    at: usize,
}

impl<'a> Model for LineWords<'a> {
    ghost use Rattle.std.specs.Prelude.{List, ◌+◌, ◌≤◌, ◌<◌, ◌^◌, drop, length};
    ghost use Rattle.scop_reader.specs.Lines.{Word, words_from};

    ghost Value = { List Word };

    ghost view = { λ w. words_from (w.at + 1) (drop w.at w.line.now) };

    ghost invariant = { λ w. (w.at ≤ length w.line.now) × (length w.line.now < 2 ^ 32) };
}

// The part of a line before its first `#`.
fn before_comment(line: &[u8]) -> &[u8]
    ensures value { result.now ≡ without_comment line.now }
    ensures size { length result.now ≤ length line.now }
{
    let (front, _) = line.split_at(comment_start(line));
    front
}

// The number of bytes before the first `#`.
fn comment_start(line: &[u8]) -> usize
    ensures { result ≡ prefix_len (λ b. not (b == 35)) line.now }
{
    line.iter().take_while(|b| **b != b'#').count()
}

impl<'a> LineWords<'a> {
    /// All words of a line, without its comment.
    pub fn new(line: &TextLine<'a>) -> LineWords<'a>
        ensures { result ≡ words_of line.now.bytes }
    {
        LineWords {
            line: before_comment(line.bytes()),
            at: 0,
        }
    }

    /// Takes the next word, if there is one.
    pub fn next(&mut self) -> Option<TextWord<'a>>
        ensures { MatchOption result ((self.old ≡ []) × (self.new ≡ [])) (λ word. self.old ≡ word ∷ self.new) }
    {
        let Some((start, end)) = next_word(self.line, self.at) else {
            return None;
        };
        self.at = end;
        Some(TextWord {
            column: start as u32 + 1,
            bytes: &self.line[start..end],
        })
    }
}

/// Whether the line has so many words.
pub fn has_words(line: &TextLine<'_>, count: usize) -> bool
    ensures { result ≡ (length (words_of line.now.bytes) == count) }
{
    let mut words = LineWords::new(line);
    for _turn in 0..count {
        if words.next().is_none() {
            return false;
        }
    }
    words.next().is_none()
}
