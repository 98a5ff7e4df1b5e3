//! A cursor over the lines of a text, which knows the number of the next line.

ghost use Rattle.std.specs.Prelude.{◌≡◌, ◌<◌, ◌-◌, ◌^◌, length};
ghost use Rattle.std.specs.Str.{bytes_eq};
ghost use Rattle.suite_base.specs.Lines.{lines};
ghost use Rattle.suite_base.specs.Words.{content};
ghost use Rattle.scop_reader.specs.Lines.{TakesLine, behind_silent};
ghost use Rattle.scop_reader.specs.Rules.{is_counted};
ghost use Rattle.scop_reader.specs.Reading.{Reads, said_line, next_said};

use crate::line_words::has_words;
use crate::text_lines::TextLine;
use std::marker::Model;
use suite_base::{Fail, Lines, Refusal};

/// The lines that are still to come. Contracts see them with the number of the first, which is the
/// number of lines plus 1 where none is left.
#[derive(Drop)]
pub struct Cursor<'a> {
    number: u32,
    left: Lines<'a>,
}

impl<'a> Model for Cursor<'a> {
    ghost use Rattle.std.specs.Prelude.{◌+◌, ◌<◌, ◌^◌};
    ghost use Rattle.suite_base.specs.Lines.{lines};
    ghost use Rattle.scop_reader.specs.Lines.{Rest, extent};

    ghost Value = { Rest };

    ghost view = { λ c. record { number = c.number; lines = lines c.left } };

    ghost invariant = { λ c. c.number + extent (lines c.left) < 2 ^ 32 };
}

impl<'a> Cursor<'a> {
    /// All lines of `text`, which has fewer than 2^32 - 1 bytes.
    pub fn new(text: &'a [u8]) -> Cursor<'a>
        requires { length text.now < 2 ^ 32 - 1 }
        ensures { result ≡ record { number = 1; lines = lines text.now } }
    {
        Cursor {
            number: 1,
            left: Lines::new(text),
        }
    }

    /// Another cursor at the same line.
    pub fn copy(&self) -> Cursor<'a>
        ensures { result ≡ self.now }
    {
        Cursor {
            number: self.number,
            left: self.left.copy(),
        }
    }

    /// Takes the next line, if there is one.
    pub fn next_line(&mut self) -> Option<TextLine<'a>>
        ensures { TakesLine self.old result self.new }
    {
        let mut left = self.left.copy();
        let Some(bytes) = left.next() else {
            return None;
        };
        let line = TextLine::new(self.number, bytes);
        self.number += 1;
        self.left = left;
        Some(line)
    }

    // Takes the next line that says something: one with more than blanks and a comment.
    fn next_said_line(&mut self) -> Option<TextLine<'a>>
        ensures { TakesLine (behind_silent self.old.number self.old.lines) result self.new }
    {
        while let Some(line) = self.next_line() {
            if !line.is_silent() {
                return Some(line);
            }
        }
        None
    }

    /// Takes the next line that says something. Where none is left, the end of the text is at fault.
    #[tactic(auto, unfolding(crate::specs::Reading::said_line))]
    pub fn said_line(&mut self) -> Result<TextLine<'a>, Fail>
        ensures { Reads (said_line self.old) result self.new }
    {
        match self.next_said_line() {
            Some(line) => Ok(line),
            None => Err(bad_line(self.number)),
        }
    }

    /// Whether the next line that says something says exactly this. It stays where it is.
    #[tactic(auto, unfolding(crate::specs::Reading::next_said))]
    pub fn sees(&self, text: &[u8]) -> bool
        ensures { result ≡ bytes_eq (content (next_said self.now)) text.now }
    {
        let mut ahead = self.copy();
        match ahead.next_said_line() {
            Some(line) => line.content() == text,
            None => text.is_empty(),
        }
    }

    /// The number of the next line that says something, or of the text's end.
    pub fn said_number(&self) -> u32
        ensures { result ≡ (behind_silent self.now.number self.now.lines).number }
    {
        let mut ahead = self.copy();
        match ahead.next_said_line() {
            Some(line) => line.number(),
            None => ahead.number,
        }
    }

    /// The number of the next line, or of the text's end.
    pub fn number(&self) -> u32
        ensures { result ≡ self.now.number }
    {
        self.number
    }

    /// Whether the next line that says something has one word.
    #[tactic(auto, unfolding(crate::specs::Reading::next_said))]
    pub fn sees_count(&self) -> bool
        ensures { result ≡ is_counted (next_said self.now) }
    {
        let mut ahead = self.copy();
        match ahead.next_said_line() {
            Some(line) => has_words(&line, 1),
            None => false,
        }
    }
}

/// The refusal of the line of this number.
pub fn bad_line(number: u32) -> Fail
    ensures { result ≡ Fail.Refused (Refusal.BadScop number) }
{
    Fail::Refused(Refusal::BadScop(number))
}
