//! Cuts a region into tokens, one at a time.

ghost use Rattle.std.specs.Prelude.{◌≡◌, ◌<◌, ◌≤◌, ◌+◌, ◌-◌, ◌^◌, length, take, drop, IfOk, IfNone, OnErr, Ok, None};
ghost use Rattle.suite_base.specs.Places.{place_at};
ghost use Rattle.c_lexer.specs.Tokens.{gap};
ghost use Rattle.c_lexer.specs.Readings as spec;

use crate::cuts::{gap, token_at};
use crate::regions::Span;
use crate::tokens::{BadToken, Token};
use std::marker::Model;
use suite_base::{Place, after_bytes};

/// Reads the tokens of a span in order. A contract sees the text up to the span's end, and how many
/// of its bytes were read.
#[derive(Debug, Drop)]
pub struct Lexer<'a> {
    text: &'a [u8],
    at: usize,
    place: Place,
}

impl<'a> Model for Lexer<'a> {
    ghost use Rattle.std.specs.Prelude.{◌≡◌, ◌<◌, ◌≤◌, ◌-◌, ◌^◌, length};
    ghost use Rattle.suite_base.specs.Places.{place_at};
    ghost use Rattle.c_lexer.specs.Readings.{Reading};

    ghost Value = { Reading };

    ghost view = { λ l. record { text = l.text.now; at = l.at } };

    ghost invariant = { λ l. (l.at ≤ length l.text.now) × (length l.text.now < 2 ^ 32 - 1) × (l.place ≡ place_at l.text.now l.at) };
}

impl<'a> Lexer<'a> {
    /// Begins to read the bytes of `span`. The text has fewer than 2^32 - 1 bytes, the span lies in
    /// it, and `span.first` is the place of byte `span.from`.
    pub fn new(bytes: &'a [u8], span: Span) -> Lexer<'a>
        requires small { length bytes.now < 2 ^ 32 - 1 }
        requires order { span.from ≤ span.to }
        requires within { span.to ≤ length bytes.now }
        requires placed { span.first ≡ place_at bytes.now span.from }
        ensures { result ≡ record { text = take span.to bytes.now; at = span.from } }
    {
        Lexer {
            text: &bytes[..span.to],
            at: span.from,
            place: span.first,
        }
    }

    /// The number of bytes, from the text's first, before the place where reading goes on.
    pub fn at(&self) -> usize
        ensures value { result ≡ self.now.at }
        ensures within { result ≤ length self.now.text }
    {
        self.at
    }

    // The bytes from the text's first up to the span's end.
    pub(crate) fn text(&self) -> &'a [u8]
        ensures text { result.now ≡ self.now.text }
        ensures short { length result.now < 2 ^ 32 - 1 }
    {
        self.text
    }

    /// The place where reading goes on: behind the last token, or the end where none is left.
    pub fn place(&self) -> Place
        ensures { result ≡ place_at self.now.text self.now.at }
    {
        self.place
    }

    /// Takes the next token, a slice of the text: the longest one behind blanks, newlines and
    /// comments. `None` exactly at the span's end, and from then on. `BadToken` exactly where no token
    /// begins there, with the place; then the lexer is as before and answers the same again. No memory
    /// is taken.
    pub fn next(&mut self) -> Result<Option<Token<'a>>, BadToken>
        ensures answer { spec.Answers self.old result self.new }
        ensures refused { OnErr result (self.new ≡ self.old) }
        ensures ended { IfOk result (λ token. IfNone token (spec.next self.new ≡ Ok None)) }
    {
        let (blank, rest) = ahead(self.text, self.at);
        let place = after_bytes(self.place, blank);
        if rest.is_empty() {
            self.at = self.text.len();
            self.place = place;
            return Ok(None);
        }
        let Some((kind, length)) = token_at(rest) else {
            return Err(BadToken(place));
        };
        let (text, _) = rest.split_at(length);
        self.at += blank.len() + length;
        self.place = after_bytes(place, text);
        Ok(Some(Token { kind, text, place }))
    }
}

/// What separates byte `at` from the next token, and what follows it.
pub fn ahead(text: &[u8], at: usize) -> (&[u8], &[u8])
    requires { at ≤ length text.now }
    ensures gap { length result.0.now ≡ gap (drop at text.now) }
    ensures blank { result.0.now ≡ take (length result.0.now) (drop at text.now) }
    ensures rest { result.1.now ≡ drop (at + length result.0.now) text.now }
    ensures whole { at + length result.0.now + length result.1.now ≡ length text.now }
{
    let left = &text[at..];
    left.split_at(gap(left))
}
