//! Numbers of a line: what a word may say, and lines of numbers.

ghost use Rattle.std.specs.Prelude.{◌≡◌};
ghost use Rattle.suite_base.specs.Numbers.{number_read};
ghost use Rattle.scop_reader.specs.Reading.{Gives, number_in, is_any, at_least, place_of};
ghost use Rattle.scop_reader.specs.Rules.{is_kind, kind_of};

use crate::cursors::bad_line;
use crate::line_words::TextWord;
use crate::text_lines::TextLine;
use relation_core::RowKind;
use row_core::Coeff;
use suite_base::{Fail, NumberRead, Place, Refusal, read_number};

// The refusal of a number out of the range of a coefficient.
fn too_large(line: &TextLine<'_>, word: &TextWord<'_>) -> Fail
    ensures { result ≡ Fail.Refused (Refusal.NumberTooLarge (place_of line.now word.now)) }
{
    let place = Place {
        line: line.number(),
        column: word.column(),
    };
    Fail::Refused(Refusal::NumberTooLarge(place))
}

/// Any number that a coefficient can be.
pub fn any_number(line: &TextLine<'_>, word: &TextWord<'_>) -> Result<Coeff, Fail>
    ensures { Gives (number_in line.now is_any word.now (number_read word.now.bytes)) result }
{
    match read_number(word.bytes()) {
        NumberRead::Value(n) => Ok(Coeff::bounded(n)),
        NumberRead::TooLarge => Err(too_large(line, word)),
        NumberRead::NotNumber => Err(bad_line(line.number())),
    }
}

/// A number that is at least `least`.
pub fn number_from(line: &TextLine<'_>, word: &TextWord<'_>, least: u8) -> Result<Coeff, Fail>
    ensures { Gives (number_in line.now (at_least least) word.now (number_read word.now.bytes)) result }
{
    match read_number(word.bytes()) {
        NumberRead::Value(n) if least as i128 <= n => Ok(Coeff::bounded(n)),
        NumberRead::TooLarge => Err(too_large(line, word)),
        _ => Err(bad_line(line.number())),
    }
}

/// The first number of a row: 0 or 1.
pub fn kind_number(line: &TextLine<'_>, word: &TextWord<'_>) -> Result<i128, Fail>
    ensures { Gives (number_in line.now is_kind word.now (number_read word.now.bytes)) result }
{
    match read_number(word.bytes()) {
        NumberRead::Value(n) if n == 0 || n == 1 => Ok(n),
        NumberRead::TooLarge => Err(too_large(line, word)),
        _ => Err(bad_line(line.number())),
    }
}

/// The kind of a row whose first number is `n`.
pub fn kind_from(n: i128) -> RowKind
    ensures { result ≡ kind_of n }
{
    if n == 0 {
        RowKind::Equal
    } else {
        RowKind::AtLeast
    }
}
