//! Measures what stands at the front of a text: a token, or what separates tokens.

ghost use Rattle.std.specs.Prelude.{◌≡◌, ◌<◌, ◌≤◌, ◌+◌, ◌==◌, not, IfSome, length, slice_index, codes};
ghost use Rattle.std.specs.Char.{is_ascii_digit};
ghost use Rattle.std.specs.List.{list_all, prefix_len};
ghost use Rattle.suite_base.specs.Bytes as bytes;
ghost use Rattle.c_lexer.specs.Tokens as spec;

use crate::tokens::TokenKind;
use suite_base::{begins_name_byte, is_blank_byte, is_name_byte};

// The byte at place `at`, or 0 past the end.
fn byte(text: &[u8], at: usize) -> u8
    ensures { result ≡ slice_index text.now at }
{
    if at < text.len() { text[at] } else { 0 }
}

// Whether a byte is a blank or a newline.
fn is_space(b: u8) -> bool
    ensures { result ≡ spec.is_space b }
{
    is_blank_byte(b) || b == b'\n'
}

// How many blanks and newlines begin `text`.
fn spaces_len(text: &[u8]) -> usize
    ensures value { result ≡ prefix_len spec.is_space text.now }
    ensures within { result ≤ length text.now }
{
    text.iter().take_while(|b| is_space(**b)).count()
}

// How many bytes the first line of `text` has.
fn line_len(text: &[u8]) -> usize
    ensures value { result ≡ prefix_len (λ b. not (b == 10)) text.now }
    ensures within { result ≤ length text.now }
{
    text.iter().take_while(|b| **b != b'\n').count()
}

// How many letters, digits and `_` begin `text`.
fn word_len(text: &[u8]) -> usize
    ensures value { result ≡ prefix_len bytes.is_name_byte text.now }
    ensures within { result ≤ length text.now }
{
    text.iter().take_while(|b| is_name_byte(**b)).count()
}

// How many bytes `text` has up to and with its first `*/`.
fn past_close(text: &[u8]) -> Option<usize>
    ensures value { result ≡ spec.past_close text.now }
    ensures within { IfSome result (λ n. n ≤ length text.now) }
{
    for (at, b) in text.iter().enumerate() {
        if *b == b'*' && byte(text, at + 1) == b'/' {
            return Some(at + 2);
        }
    }
    None
}

// How long the separator at the front of `text` is, 0 where none stands there.
fn separator_len(text: &[u8]) -> usize
    ensures value { result ≡ spec.separator_len text.now }
    ensures within { result ≤ length text.now }
{
    let first = byte(text, 0);
    if is_space(first) {
        return spaces_len(text);
    }
    if first != b'/' {
        return 0;
    }
    match byte(text, 1) {
        b'/' => line_len(text),
        b'*' => match past_close(&text[2..]) {
            None => 0,
            Some(n) => 2 + n,
        },
        _ => 0,
    }
}

/// How many bytes separate the front of `text` from its first token.
pub fn gap(text: &[u8]) -> usize
    ensures value { result ≡ spec.gap text.now }
    ensures within { result ≤ length text.now }
{
    let mut left = text;
    loop {
        let length = separator_len(left);
        if length == 0 {
            return text.len() - left.len();
        }
        left = &left[length..];
    }
}

// Whether a number begins here: with a digit, or with `.` and a digit.
fn begins_number(text: &[u8]) -> bool
    ensures { result ≡ spec.begins_number text.now }
{
    let first = byte(text, 0);
    first.is_ascii_digit() || (first == b'.' && byte(text, 1).is_ascii_digit())
}

// Whether a number goes on with `b` after the byte `before`.
fn goes_on(before: u8, b: u8) -> bool
    ensures { result ≡ spec.goes_on before b }
{
    is_name_byte(b) || b == b'.' || (b"+-".contains(&b) && b"eE".contains(&before))
}

// How many bytes at the front belong to a number.
fn number_len(text: &[u8]) -> usize
    ensures value { result ≡ spec.number_len 0 text.now }
    ensures within { result ≤ length text.now }
{
    let mut before = 0;
    for (at, b) in text.iter().enumerate() {
        if !goes_on(before, *b) {
            return at;
        }
        before = *b;
    }
    text.len()
}

// Whether all bytes are digits.
fn are_digits(text: &[u8]) -> bool
    ensures { result ≡ list_all is_ascii_digit text.now }
{
    text.iter().all(|b| b.is_ascii_digit())
}

// Whether a number is an Integer: `0`, or digits of which the first is not 0.
fn is_integer(text: &[u8]) -> bool
    ensures { result ≡ spec.is_integer text.now }
{
    are_digits(text) && (byte(text, 0) != b'0' || text.len() == 1)
}

// The kind of a number.
fn number_kind(text: &[u8]) -> TokenKind
    ensures { result ≡ spec.number_kind text.now }
{
    if is_integer(text) {
        TokenKind::Integer
    } else {
        TokenKind::Literal
    }
}

// Whether two bytes are a sign.
fn is_pair(a: u8, b: u8) -> bool
    ensures { result ≡ spec.is_pair a b }
{
    match b {
        b'=' => begins_pair(a),
        b'+' | b'-' | b'&' | b'|' => a == b,
        _ => false,
    }
}

// Whether a byte makes a sign with a `=` behind it.
fn begins_pair(a: u8) -> bool
    ensures { result ≡ spec.is_one_of a (codes "+-*/%<>=!") }
{
    match a {
        b'+' | b'-' | b'*' | b'/' | b'%' | b'<' | b'>' | b'=' | b'!' => true,
        _ => false,
    }
}

// Whether a byte is a sign by itself.
fn is_single(b: u8) -> bool
    ensures { result ≡ spec.is_single b }
{
    match b {
        b'(' | b')' | b'[' | b']' | b'{' | b'}' | b';' | b',' | b'?' | b':' => true,
        b'=' | b'+' | b'-' | b'*' | b'/' | b'%' | b'<' | b'>' | b'!' => true,
        _ => false,
    }
}

// How many bytes at the front are a sign, 0 where none begins.
fn sign_len(text: &[u8]) -> usize
    ensures value { result ≡ spec.sign_len text.now }
    ensures within { result ≤ length text.now }
{
    let first = byte(text, 0);
    if is_pair(first, byte(text, 1)) {
        2
    } else if is_single(first) {
        1
    } else {
        0
    }
}

/// The token at the front of a text that begins with no separator, as its kind and its length.
pub fn token_at(text: &[u8]) -> Option<(TokenKind, usize)>
    ensures value { result ≡ spec.token_at text.now }
    ensures within { IfSome result (λ t. (1 ≤ t.1) × (t.1 ≤ length text.now)) }
{
    let first = byte(text, 0);
    if begins_name_byte(first) {
        return Some((TokenKind::Name, word_len(text)));
    }
    if begins_number(text) {
        let length = number_len(text);
        return Some((number_kind(&text[..length]), length));
    }
    if first == b'/' && byte(text, 1) == b'*' {
        return None;
    }
    match sign_len(text) {
        0 => None,
        length => Some((TokenKind::Sign, length)),
    }
}
