//! The lines that open an extension, and its name.

ghost use Rattle.std.specs.Prelude.{◌≡◌, [], ◌∷◌, ◌++◌};
ghost use Rattle.std.specs.Str.{bytes_eq};
ghost use Rattle.scop_core.specs.Printable.{are_name_bytes as has_name_bytes, is_extension_name};
ghost use Rattle.scop_reader.specs.Rules as spec;

use suite_base::{begins_name_byte, is_name_byte};

// Whether all bytes are letters, digits and `_`.
fn are_name_bytes(bytes: &[u8]) -> bool
    ensures { result ≡ has_name_bytes bytes.now }
{
    let mut rest = bytes;
    while let [first, after @ ..] = rest {
        if !is_name_byte(*first) {
            return false;
        }
        rest = after;
    }
    true
}

// Whether `name` has letters, digits and `_`, and begins with no digit.
fn is_name(name: &[u8]) -> bool
    ensures { result ≡ is_extension_name name.now }
{
    match name {
        [] => false,
        [first, after @ ..] => begins_name_byte(*first) && are_name_bytes(after),
    }
}

/// What stands between the first byte and the last.
pub fn opened_name(line: &[u8]) -> &[u8]
    ensures { result.now ≡ spec.opened_name line.now }
{
    match line {
        [_, name @ .., _] => name,
        _ => &[],
    }
}

// Whether the first byte is `<`, and another one, the last, is `>`.
fn is_bracketed(line: &[u8]) -> bool
    ensures { result ≡ bytes_eq line.now (60 ∷ spec.opened_name line.now ++ 62 ∷ []) }
{
    match line {
        [first, .., last] => *first == b'<' && *last == b'>',
        _ => false,
    }
}

/// Whether a line opens an extension: it is `<name>`.
pub fn is_opening(line: &[u8]) -> bool
    ensures { result ≡ spec.is_opening line.now }
{
    is_bracketed(line) && is_name(opened_name(line))
}
