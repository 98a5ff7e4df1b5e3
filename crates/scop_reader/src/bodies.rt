//! The body of a statement: its text and the names of its iterators.

ghost use Rattle.scop_reader.specs.Reading.{Reads};
ghost use Rattle.scop_reader.specs.Rules as spec;

use crate::cursors::{Cursor, bad_line};
use crate::line_rules::{closing, count_line, word_line};
use scop_core::Body;
use std::alloc::Global;
use suite_base::{Fail, List, Text};

/// Takes the names of so many parameters; there is no line where there are none.
pub fn names(alloc: Global, cursor: &mut Cursor<'_>, count: usize) -> Result<List<Text>, Fail>
    ensures { Reads (spec.names count cursor.old) result cursor.new }
{
    if count == 0 {
        return Ok(List::new(alloc));
    }
    word_line(alloc, cursor, count)
}

// Refuses a next line that is the one that ends a body.
#[tactic(auto, unfolding(crate::specs::Rules::no_end))]
fn no_end(cursor: &Cursor<'_>) -> Result<(), Fail>
    ensures { Reads (spec.no_end cursor.now) result cursor.now }
{
    if cursor.sees(b"</body>") {
        return Err(bad_line(cursor.said_number()));
    }
    Ok(())
}

// Takes the names of so many iterators; there is no line where there are none.
fn iterator_names(alloc: Global, cursor: &mut Cursor<'_>, count: usize) -> Result<List<Text>, Fail>
    ensures { Reads (spec.iterator_names count cursor.old) result cursor.new }
{
    if count == 0 {
        return Ok(List::new(alloc));
    }
    no_end(cursor)?;
    word_line(alloc, cursor, count)
}

// Takes the text of a body.
#[tactic(auto, unfolding(crate::specs::Rules::body_text))]
fn body_text(alloc: Global, cursor: &mut Cursor<'_>) -> Result<Text, Fail>
    ensures { Reads (spec.body_text cursor.old) result cursor.new }
{
    no_end(cursor)?;
    let line = cursor.said_line()?;
    let text = Text::from_bytes(alloc, line.content())?;
    Ok(text)
}

/// Takes a body of so many iterators, behind its opening line.
#[tactic(auto, unfolding(crate::specs::Rules::body))]
pub fn body(alloc: Global, cursor: &mut Cursor<'_>, iterators: usize) -> Result<Body, Fail>
    ensures { Reads (spec.body iterators cursor.old) result cursor.new }
{
    let (line, count) = count_line(cursor, 0)?;
    if count != iterators as u128 {
        return Err(bad_line(line.number()));
    }
    let iterators = iterator_names(alloc, cursor, iterators)?;
    let text = body_text(alloc, cursor)?;
    closing(cursor, b"</body>")?;
    Ok(Body { text, iterators })
}
