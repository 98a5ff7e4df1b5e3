//! A line of a text with its number, and its words with their columns.

ghost use Rattle.std.specs.Prelude.{◌≡◌, ◌<◌, ◌^◌, length};
ghost use Rattle.suite_base.specs.Words.{content};
ghost use Rattle.scop_reader.specs.Lines.{is_silent};

use std::marker::Model;
use suite_base::content_line;

/// A line and its number, from 1. It has fewer than 2^32 bytes.
#[derive(Drop)]
pub struct TextLine<'a> {
    number: u32,
    bytes: &'a [u8],
}

impl<'a> Model for TextLine<'a> {
    ghost use Rattle.std.specs.Prelude.{◌<◌, ◌^◌, length};
    ghost use Rattle.scop_reader.specs.Lines.{Line};

    ghost Value = { Line };

    ghost view = { λ l. record { number = l.number; bytes = l.bytes.now } };

    ghost invariant = { λ l. length l.bytes.now < 2 ^ 32 };
}

impl<'a> TextLine<'a> {
    /// The line of these bytes and this number.
    pub fn new(number: u32, bytes: &'a [u8]) -> TextLine<'a>
        requires { length bytes.now < 2 ^ 32 }
        ensures { result ≡ record { number = number; bytes = bytes.now } }
    {
        TextLine { number, bytes }
    }

    /// The number of the line, from 1.
    pub fn number(&self) -> u32
        ensures { result ≡ self.now.number }
    {
        self.number
    }

    /// The line as it stands, without its newline.
    pub fn bytes(&self) -> &'a [u8]
        ensures value { result.now ≡ self.now.bytes }
        ensures small { length result.now < 2 ^ 32 }
    {
        self.bytes
    }

    /// What the line says: without its comment, and without the blanks at both ends of what is left.
    pub fn content(&self) -> &'a [u8]
        ensures { result.now ≡ content self.now.bytes }
    {
        content_line(self.bytes)
    }

    /// Whether the line has blanks and a comment alone.
    pub fn is_silent(&self) -> bool
        ensures { result ≡ is_silent self.now.bytes }
    {
        match self.content() {
            [] => true,
            _ => false,
        }
    }
}
