//! The words of a line, compared with words and with numbers as they are read.

ghost use Rattle.std.specs.Prelude.{◌≡◌, ◌≤◌, ◌<◌, ◌^◌, ◌∷◌, [], map, drop, length, pos, true, false, unsigned_abs, MatchOption};
ghost use Rattle.suite_base.specs.Numbers.{number_read};
ghost use Rattle.suite_base.specs.Words.{words};
ghost use Rattle.scop_data.specs.LineWords as said;
ghost use Rattle.dependence_audit.specs.Contents as spec;

use relation_core::{Part, PartRow, RowKind};
use row_core::Coeff;
use suite_base::{NumberRead, next_word, read_number};

/// Whether the words of `line` are these, byte by byte.
pub fn words_are(line: &[u8], expected: &[&[u8]]) -> bool
    ensures { result ≡ said.are_same (words line.now) (map (λ word. word.now) expected.now) }
{
    let mut from = 0;
    for word in expected {
        let Some(end) = word_follows(line, from, word) else {
            return false;
        };
        from = end;
    }
    next_word(line, from).is_none()
}

// Where the first word at or after `from` ends, if it is this one.
fn word_follows(line: &[u8], from: usize, word: &[u8]) -> Option<usize>
    requires { from ≤ length line.now }
    ensures { MatchOption result (spec.is_first word.now (words (drop from line.now)) ≡ false) (λ end. spec.WordEnds line.now from word.now end) }
{
    let (start, end) = next_word(line, from)?;
    if &line[start..end] == word {
        Some(end)
    } else {
        None
    }
}

/// Whether the words of `line` are a number word of `count` alone.
pub fn count_is(line: &[u8], count: usize) -> bool
    ensures { result ≡ spec.says line.now (pos count ∷ []) }
{
    let numbers = [Coeff::bounded(count as i128)];
    numbers_are(line, 0, &numbers)
}

/// Whether the words of `line` are number words of the six numbers of `system`.
pub fn header_is(line: &[u8], system: &Part) -> bool
    ensures { result ≡ spec.says line.now (said.header_numbers system.now) }
{
    let shape = system.shape();
    let numbers = [
        Coeff::bounded(system.row_count() as i128),
        Coeff::bounded((system.width() + 1) as i128),
        Coeff::bounded(shape.outputs as i128),
        Coeff::bounded(shape.inputs as i128),
        Coeff::bounded(shape.locals as i128),
        Coeff::bounded(shape.parameters as i128),
    ];
    numbers_are(line, 0, &numbers)
}

/// Whether the words of `line` are number words of the kind of `row` and of its entries.
pub fn row_is(line: &[u8], row: &PartRow) -> bool
    ensures { result ≡ spec.says line.now (said.row_numbers row.now) }
{
    match number_follows(line, 0, kind_number(row.kind)) {
        None => false,
        Some(end) => numbers_are(line, end, row.entries.as_slice()),
    }
}

// The number of a row's kind.
fn kind_number(kind: RowKind) -> i128
    ensures { result ≡ said.kind_number kind }
{
    match kind {
        RowKind::Equal => 0,
        RowKind::AtLeast => 1,
    }
}

// Whether the words at or after `from` are number words of these numbers.
fn numbers_are(line: &[u8], from: usize, numbers: &[Coeff]) -> bool
    requires { from ≤ length line.now }
    ensures { result ≡ said.are_numbers (words (drop from line.now)) numbers.now }
{
    let mut at = from;
    for number in numbers {
        let Some(end) = number_follows(line, at, number.value()) else {
            return false;
        };
        at = end;
    }
    next_word(line, at).is_none()
}

// Where the first word at or after `from` ends, if it is a number word of this number.
fn number_follows(line: &[u8], from: usize, number: i128) -> Option<usize>
    requires { from ≤ length line.now }
    ensures { MatchOption result (spec.begins_with number (words (drop from line.now)) ≡ false) (λ end. spec.NumberEnds line.now from number end) }
{
    let (start, end) = next_word(line, from)?;
    if number_is(&line[start..end], number) {
        Some(end)
    } else {
        None
    }
}

// Whether this is a number word of this number.
fn number_is(word: &[u8], number: i128) -> bool
    ensures { result ≡ said.is_value number (number_read word.now) }
{
    match read_number(word) {
        NumberRead::Value(value) => value == number,
        NumberRead::TooLarge => false,
        NumberRead::NotNumber => false,
    }
}
