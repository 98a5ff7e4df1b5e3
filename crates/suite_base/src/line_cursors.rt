//! The lines of a text, one after the other, and what is left of a line without its blanks.

ghost use Rattle.std.specs.Prelude.{◌≡◌, [], ◌∷◌, MatchOption, reverse, not, ◌==◌};
ghost use Rattle.std.specs.List.{prefix_len};
ghost use Rattle.suite_base.specs.Lines.{is_blank, lines, trim, trim_front};

use std::marker::Model;

/// The lines of a text that are still to come. A newline ends a line and is no part of it; what
/// follows the last newline is a line where it is not empty. Contracts see the bytes that are left.
#[derive(Debug, Drop)]
pub struct Lines<'a> {
    rest: &'a [u8],
}

impl<'a> Model for Lines<'a> {
    ghost use Rattle.std.specs.Prelude.{List, ℕ};

    ghost Value = { List ℕ };

    ghost view = { λ left. left.rest.now };
}

impl<'a> Lines<'a> {
    /// All lines of `text`.
    pub fn new(text: &'a [u8]) -> Lines<'a>
        ensures { result ≡ text.now }
    {
        Lines { rest: text }
    }

    /// The same lines once more.
    pub fn copy(&self) -> Lines<'a>
        ensures { result ≡ self.now }
    {
        Lines { rest: self.rest }
    }

    /// Takes the next line, without its newline; `None` exactly where none is left.
    pub fn next(&mut self) -> Option<&'a [u8]>
        ensures { MatchOption result (lines self.old ≡ []) (λ line. lines self.old ≡ line.now ∷ lines self.new) }
    {
        let (line, rest) = cut_line(self.rest)?;
        self.rest = rest;
        Some(line)
    }
}

// The first line of `text` without its newline, and what follows it; `None` exactly where no line is left.
fn cut_line(text: &[u8]) -> Option<(&[u8], &[u8])>
    ensures { MatchOption result (lines text.now ≡ []) (λ cut. lines text.now ≡ cut.0.now ∷ lines cut.1.now) }
{
    let (line, rest) = text.split_at(line_length(text));
    match rest {
        [_, after @ ..] => Some((line, after)),
        [] => {
            if line.is_empty() {
                None
            } else {
                Some((line, rest))
            }
        }
    }
}

// The number of bytes before the first newline.
fn line_length(text: &[u8]) -> usize
    ensures { result ≡ prefix_len (λ b. not (b == 10)) text.now }
{
    text.iter().take_while(|b| **b != b'\n').count()
}

/// Whether `byte` is a blank: space, tab or carriage return.
pub fn is_blank_byte(byte: u8) -> bool
    ensures { result ≡ is_blank byte }
{
    byte == b' ' || byte == b'\t' || byte == b'\r'
}

/// `line` without the blanks at its front.
pub fn trimmed_front(line: &[u8]) -> &[u8]
    ensures { result.now ≡ trim_front line.now }
{
    let mut line = line;
    while let [first, rest @ ..] = line {
        if !is_blank_byte(*first) {
            return line;
        }
        line = rest;
    }
    line
}

// `line` without the blanks at its end.
fn trimmed_end(line: &[u8]) -> &[u8]
    ensures { result.now ≡ reverse (trim_front (reverse line.now)) }
{
    let mut line = line;
    while let [rest @ .., last] = line {
        if !is_blank_byte(*last) {
            return line;
        }
        line = rest;
    }
    line
}

/// `line` without the blanks at both ends.
pub fn trimmed(line: &[u8]) -> &[u8]
    ensures { result.now ≡ trim line.now }
{
    trimmed_end(trimmed_front(line))
}
