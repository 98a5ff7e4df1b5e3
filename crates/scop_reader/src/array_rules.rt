//! The arrays, and the global extensions.

ghost use Rattle.std.specs.Prelude.{◌≡◌, []};
ghost use Rattle.scop_core.specs.Printable.{arrays_name, has_no_array};
ghost use Rattle.scop_reader.specs.Lines.{words_of};
ghost use Rattle.scop_reader.specs.Reading.{Gives, Reads, ReadsTo};
ghost use Rattle.scop_reader.specs.Rules as spec;

use crate::cursors::{Cursor, bad_line};
use crate::extension_names::{is_opening, opened_name};
use crate::kept_lines::kept;
use crate::line_rules::{closing, count_line, literal};
use crate::line_words::LineWords;
use crate::number_words::number_from;
use crate::text_lines::TextLine;
use row_core::Coeff;
use scop_core::Extension;
use std::alloc::Global;
use suite_base::{Fail, List, MAX_ARRAYS, Refusal, Text, Which};

// The array of a line: an identifier of at least 1, and a name.
fn array_of(alloc: Global, line: &TextLine<'_>) -> Result<(Coeff, Text), Fail>
    ensures { Gives (spec.array_of line.now (words_of line.now.bytes)) result }
{
    let mut words = LineWords::new(line);
    let Some(identifier) = words.next() else {
        return Err(bad_line(line.number()));
    };
    let Some(name) = words.next() else {
        return Err(bad_line(line.number()));
    };
    if words.next().is_some() {
        return Err(bad_line(line.number()));
    }
    let identifier = number_from(line, &identifier, 1)?;
    let name = Text::from_bytes(alloc, name.bytes())?;
    Ok((identifier, name))
}

// Whether no array has this identifier.
fn is_new(arrays: &[(Coeff, Text)], identifier: Coeff) -> bool
    ensures { result ≡ has_no_array identifier arrays.now }
{
    for array in arrays {
        if identifier.value() == array.0.value() {
            return false;
        }
    }
    true
}

// Takes the line of an array whose identifier none of these has.
#[tactic(auto, unfolding(crate::specs::Rules::array_line))]
fn array_line(
    alloc: Global,
    cursor: &mut Cursor<'_>,
    found: &List<(Coeff, Text)>,
) -> Result<(Coeff, Text), Fail>
    ensures { Reads (spec.array_line found.now cursor.old) result cursor.new }
{
    let line = cursor.said_line()?;
    let array = array_of(alloc, &line)?;
    if !is_new(found.as_slice(), array.0) {
        return Err(bad_line(line.number()));
    }
    Ok(array)
}

// Takes the lines of so many arrays.
fn array_lines(
    alloc: Global,
    cursor: &mut Cursor<'_>,
    count: usize,
) -> Result<List<(Coeff, Text)>, Fail>
    ensures { Reads (spec.arrays_from count [] cursor.old) result cursor.new }
{
    let mut found = List::new(alloc);
    for _turn in 0..count {
        let next = array_line(alloc, cursor, &found)?;
        found.push(next)?;
    }
    Ok(found)
}

// Takes the arrays, at most 4,096, behind their opening line.
#[tactic(auto, unfolding(crate::specs::Rules::arrays))]
fn arrays(alloc: Global, cursor: &mut Cursor<'_>) -> Result<List<(Coeff, Text)>, Fail>
    ensures { Reads (spec.arrays cursor.old) result cursor.new }
{
    let (_line, count) = count_line(cursor, 0)?;
    if count > MAX_ARRAYS as u128 {
        return Err(Fail::Refused(Refusal::Limit(Which::Arrays, 0)));
    }
    let found = array_lines(alloc, cursor, count as usize)?;
    closing(cursor, b"</arrays>")?;
    Ok(found)
}

// Takes a global extension: the arrays, at most once, or one that is kept.
#[tactic(auto, unfolding(crate::specs::Rules::extension))]
fn global(
    alloc: Global,
    cursor: &mut Cursor<'_>,
    special: &mut Option<List<(Coeff, Text)>>,
    others: &mut List<Extension>,
) -> Result<(), Fail>
    ensures { ReadsTo (spec.extension arrays_name spec.arrays (spec.extensions_of special.old others.old) cursor.old) result (spec.extensions_of special.new others.new) cursor.new }
{
    let line = cursor.said_line()?;
    let text = line.content();
    if !is_opening(text) {
        return Err(bad_line(line.number()));
    }
    let name = opened_name(text);
    if name == b"arrays".as_slice() {
        if special.is_some() {
            return Err(bad_line(line.number()));
        }
        let made = arrays(alloc, cursor)?;
        *special = Some(made);
    } else {
        let made = kept(alloc, cursor, name)?;
        others.push(made)?;
    }
    Ok(())
}

/// Takes the global extensions and the line behind them that closes the whole.
pub fn globals(
    alloc: Global,
    cursor: &mut Cursor<'_>,
    special: &mut Option<List<(Coeff, Text)>>,
    others: &mut List<Extension>,
) -> Result<(), Fail>
    requires { spec.extensions_of special.old others.old ≡ spec.no_extensions }
    ensures { ReadsTo (spec.globals cursor.old) result (spec.extensions_of special.new others.new) cursor.new }
{
    while !cursor.sees(b"</OpenScop>") {
        global(alloc, cursor, special, others)?;
    }
    literal(cursor, b"</OpenScop>")
}
