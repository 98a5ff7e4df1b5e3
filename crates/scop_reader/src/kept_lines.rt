//! Extensions that are kept as they were read.

ghost use Rattle.std.specs.Prelude.{◌≡◌, IfOk};
ghost use Rattle.scop_core.specs.Printable.{end_line};
ghost use Rattle.scop_reader.specs.Reading.{Reads};
ghost use Rattle.scop_reader.specs.Rules as spec;

use crate::cursors::{Cursor, bad_line};
use scop_core::Extension;
use std::alloc::Global;
use suite_base::{Fail, List, NoMemory, Text, trimmed};

// The line that ends an extension of this name.
fn end_of(alloc: Global, name: &[u8]) -> Result<Text, NoMemory>
    ensures { IfOk result (λ text. text ≡ end_line name.now) }
{
    let mut text = Text::new(alloc);
    text.push_bytes(b"</")?;
    text.push_bytes(name)?;
    text.push_bytes(b">")?;
    Ok(text)
}

// Takes the lines up to the one that ends an extension of this name, which is taken too.
#[tactic(auto, unfolding(crate::specs::Rules::kept_lines))]
fn kept_lines(alloc: Global, cursor: &mut Cursor<'_>, name: &[u8]) -> Result<List<Text>, Fail>
    ensures { Reads (spec.kept_lines name.now cursor.old) result cursor.new }
{
    let end = end_of(alloc, name)?;
    let last = end.bytes();
    let mut found = List::new(alloc);
    while let Some(line) = cursor.next_line() {
        if trimmed(line.bytes()) == last {
            return Ok(found);
        }
        let text = Text::from_bytes(alloc, line.bytes())?;
        found.push(text)?;
    }
    Err(bad_line(cursor.number()))
}

/// Takes an extension that is kept, behind its opening line.
#[tactic(auto, unfolding(crate::specs::Rules::kept))]
pub fn kept(alloc: Global, cursor: &mut Cursor<'_>, name: &[u8]) -> Result<Extension, Fail>
    ensures { Reads (spec.kept name.now cursor.old) result cursor.new }
{
    let lines = kept_lines(alloc, cursor, name)?;
    let name = Text::from_bytes(alloc, name)?;
    Ok(Extension { name, lines })
}
