//! The pragma lines that open and close a region.

ghost use Rattle.std.specs.Prelude.{◌≡◌, Some, None, MatchOption};
ghost use Rattle.c_lexer.specs.Pragmas as spec;

use suite_base::{is_blank_byte, trimmed_front};

/// A pragma line: `#pragma scop` opens a region, `#pragma endscop` closes it.
#[derive(Clone, Copy, Debug, PartialEq, Eq)]
pub enum Pragma {
    Scop,
    Endscop,
}

/// Whether `line`, without its newline, is this pragma: apart from blanks `#`, `pragma`, and `scop` or
/// `endscop`, with at least one blank before the last word and any number after `#`.
pub fn is_pragma(line: &[u8], wanted: Pragma) -> bool
    ensures { result ≡ spec.is_pragma wanted line.now }
{
    let Some(rest) = pragma_rest(line) else {
        return false;
    };
    match wanted {
        Pragma::Scop => says(b"scop", rest),
        Pragma::Endscop => says(b"endscop", rest),
    }
}

// What follows `word` at the front of `text`.
fn after<'a>(word: &[u8], mut text: &'a [u8]) -> Option<&'a [u8]>
    ensures { MatchOption result (spec.after word.now text.entry.now ≡ None) (λ rest. spec.after word.now text.entry.now ≡ Some rest.now) }
{
    for wanted in word {
        let [first, rest @ ..] = text else {
            return None;
        };
        if *first != *wanted {
            return None;
        }
        text = rest;
    }
    Some(text)
}

// What follows `#` and `pragma` on a line that begins so.
fn pragma_rest(line: &[u8]) -> Option<&[u8]>
    ensures { MatchOption result (spec.pragma_rest line.now ≡ None) (λ rest. spec.pragma_rest line.now ≡ Some rest.now) }
{
    let rest = after(b"#", trimmed_front(line))?;
    after(b"pragma", trimmed_front(rest))
}

// Whether only blanks are left.
fn is_bare(text: &[u8]) -> bool
    ensures { result ≡ spec.is_bare text.now }
{
    text.iter().all(|b| is_blank_byte(*b))
}

// Whether a blank is left, and then `word` among blanks.
fn says(word: &[u8], text: &[u8]) -> bool
    ensures { result ≡ spec.says word.now (Some text.now) }
{
    let [first, rest @ ..] = text else {
        return false;
    };
    if !is_blank_byte(*first) {
        return false;
    }
    match after(word, trimmed_front(rest)) {
        None => false,
        Some(tail) => is_bare(tail),
    }
}
