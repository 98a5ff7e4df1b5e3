//! The whole of a text.

ghost use Rattle.std.specs.Prelude.{◌<◌, ◌-◌, ◌^◌, length};
ghost use Rattle.scop_reader.specs.Reading.{Gives, Reads};
ghost use Rattle.scop_reader.specs.Rules as spec;
ghost use Rattle.scop_reader.specs.Texts.{pieces_in};

use crate::array_rules::globals;
use crate::bodies::names;
use crate::cursors::{Cursor, bad_line};
use crate::line_rules::{literal, one_word};
use crate::relation_rules::context;
use crate::statement_rules::{statement_count, statements};
use scop_core::ScopPieces;
use std::alloc::Global;
use suite_base::{Fail, List, Refusal, Text};

// Takes the line that opens a SCoP, and the lines before it unread.
fn opening(cursor: &mut Cursor<'_>) -> Result<(), Fail>
    ensures { Reads (spec.opening cursor.old) result cursor.new }
{
    while let Some(line) = cursor.next_line() {
        if line.content() == b"<OpenScop>".as_slice() {
            return Ok(());
        }
    }
    Err(bad_line(cursor.number()))
}

// Refuses a second line that opens a SCoP.
fn no_more(cursor: &Cursor<'_>) -> Result<(), Fail>
    ensures { Reads (spec.no_more cursor.now) result cursor.now }
{
    let mut ahead = cursor.copy();
    while let Some(line) = ahead.next_line() {
        if line.content() == b"<OpenScop>".as_slice() {
            return Err(Fail::Refused(Refusal::SecondScop(line.number())));
        }
    }
    Ok(())
}

// Takes the names of so many parameters between the lines that hold them.
#[tactic(auto, unfolding(crate::specs::Rules::parameter_names))]
fn parameter_names(alloc: Global, cursor: &mut Cursor<'_>, count: usize) -> Result<List<Text>, Fail>
    ensures { Reads (spec.parameter_names count cursor.old) result cursor.new }
{
    literal(cursor, b"<strings>")?;
    let found = names(alloc, cursor, count)?;
    literal(cursor, b"</strings>")?;
    Ok(found)
}

// Takes the names of so many parameters, where they are present.
#[tactic(auto, unfolding(crate::specs::Rules::parameters))]
fn parameters(
    alloc: Global,
    cursor: &mut Cursor<'_>,
    count: usize,
) -> Result<Option<List<Text>>, Fail>
    ensures { Reads (spec.parameters count cursor.old) result cursor.new }
{
    let line = cursor.said_line()?;
    if line.content() == b"1".as_slice() {
        let found = parameter_names(alloc, cursor, count)?;
        return Ok(Some(found));
    }
    if line.content() != b"0".as_slice() {
        return Err(bad_line(line.number()));
    }
    Ok(None)
}

// Takes a whole text.
#[tactic(auto, unfolding(crate::specs::Rules::scop))]
fn scop(alloc: Global, cursor: &mut Cursor<'_>) -> Result<ScopPieces, Fail>
    ensures { Reads (spec.scop cursor.old) result cursor.new }
{
    opening(cursor)?;
    let language = one_word(alloc, cursor)?;
    let mut entries = Vec::new(alloc);
    let context = context(alloc, cursor, &mut entries)?;
    let width = context.shape().parameters;
    let parameters = parameters(alloc, cursor, width)?;
    let count = statement_count(cursor)?;
    let statements = statements(alloc, cursor, width, count, &mut entries)?;
    let mut arrays = None;
    let mut extensions = List::new(alloc);
    globals(alloc, cursor, &mut arrays, &mut extensions)?;
    no_more(cursor)?;
    Ok(ScopPieces {
        language,
        context,
        parameters,
        statements,
        arrays,
        extensions,
    })
}

/// The pieces of a text, which has fewer than 2^32 - 1 bytes, as the grammar of OpenScop text has them
/// (`docs/FORMATS.md`). A refusal is the first one of its lines: `BadScop`, `NumberTooLarge`, `Limit`
/// or `SecondScop`. Whether a SCoP can be assembled of the pieces is not asked.
#[tactic(auto, unfolding(crate::specs::Texts::pieces_in))]
pub fn read_pieces(alloc: Global, bytes: &[u8]) -> Result<ScopPieces, Fail>
    requires { length bytes.now < 2 ^ 32 - 1 }
    ensures { Gives (pieces_in bytes.now) result }
{
    let mut cursor = Cursor::new(bytes);
    scop(alloc, &mut cursor)
}
