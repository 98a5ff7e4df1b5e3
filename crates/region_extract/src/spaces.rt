//! The text of an assignment, with single spaces.

ghost use Rattle.std.specs.Prelude.{◌≡◌, ◌++◌, ◌≤◌, length, IfOk};
ghost use Rattle.std.specs.List.{prefix_len};
ghost use Rattle.region_trees.specs.Statements.{spaced_from};
ghost use Rattle.region_extract.specs.Spaces as spec;

use c_lexer::gap;
use std::alloc::Global;
use suite_base::{NoMemory, Text, is_blank_byte};

// Whether no blank, newline or comment begins with the byte.
fn is_plain(b: u8) -> bool
    ensures { result ≡ spec.is_plain b }
{
    !(is_blank_byte(b) || b == b'\n' || b == b'/')
}

// How many such bytes begin `text`.
fn plain_len(text: &[u8]) -> usize
    ensures value { result ≡ prefix_len spec.is_plain text.now }
    ensures within { result ≤ length text.now }
{
    text.iter().take_while(|b| is_plain(**b)).count()
}

/// The text with each run of blanks, newlines and comments made one space.
pub fn spaced(alloc: Global, text: &[u8]) -> Result<Text, NoMemory>
    ensures { IfOk result (λ spaced. spaced ≡ spaced_from 0 text.now) }
{
    let mut spaced = Text::new(alloc);
    let mut rest = text;
    while let Some(first) = rest.first() {
        let plain = plain_len(rest);
        if plain > 0 {
            spaced.push_bytes(&rest[..plain])?;
            rest = &rest[plain..];
        } else {
            let length = gap(rest);
            if length == 0 {
                spaced.push(*first)?;
                rest = &rest[1..];
            } else {
                spaced.push(b' ')?;
                rest = &rest[length..];
            }
        }
    }
    Ok(spaced)
}
