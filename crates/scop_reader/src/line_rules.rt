//! Lines of the grammar: fixed words, words, numbers.

ghost use Rattle.std.specs.Prelude.{◌≡◌, ◌==◌, false, [], ◌∷◌, length, IfOk, MatchOption};
ghost use Rattle.scop_reader.specs.Lines.{words_of, word_bytes};
ghost use Rattle.scop_reader.specs.Reading.{Reads};
ghost use Rattle.scop_reader.specs.Reading as spec;
ghost use Rattle.scop_reader.specs.Rules as rule;

use crate::cursors::{Cursor, bad_line};
use crate::line_words::{LineWords, TextWord, has_words};
use crate::number_words::number_from;
use crate::text_lines::TextLine;
use std::alloc::Global;
use suite_base::{Fail, List, NoMemory, Text, trimmed};

/// Takes a line that says exactly `text`.
#[tactic(auto, unfolding(crate::specs::Reading::literal))]
pub fn literal(cursor: &mut Cursor<'_>, text: &[u8]) -> Result<(), Fail>
    ensures { Reads (spec.literal text.now cursor.old) result cursor.new }
{
    let line = cursor.said_line()?;
    if line.content() != text {
        return Err(bad_line(line.number()));
    }
    Ok(())
}

/// Takes a line that is exactly `text` but for blanks at its ends.
#[tactic(auto, unfolding(crate::specs::Reading::closing))]
pub fn closing(cursor: &mut Cursor<'_>, text: &[u8]) -> Result<(), Fail>
    ensures { Reads (spec.closing text.now cursor.old) result cursor.new }
{
    let line = cursor.said_line()?;
    if trimmed(line.bytes()) != text {
        return Err(bad_line(line.number()));
    }
    Ok(())
}

// The words of a line, as texts.
fn texts_of(alloc: Global, line: &TextLine<'_>) -> Result<List<Text>, NoMemory>
    ensures { IfOk result (λ texts. texts ≡ word_bytes (words_of line.now.bytes)) }
{
    let mut made = List::new(alloc);
    let mut words = LineWords::new(line);
    while let Some(word) = words.next() {
        made.push(Text::from_bytes(alloc, word.bytes())?)?;
    }
    Ok(made)
}

/// Takes a line of so many words.
#[tactic(auto, unfolding(crate::specs::Reading::word_line))]
pub fn word_line(alloc: Global, cursor: &mut Cursor<'_>, count: usize) -> Result<List<Text>, Fail>
    ensures { Reads (spec.word_line count cursor.old) result cursor.new }
{
    let line = cursor.said_line()?;
    if !has_words(&line, count) {
        return Err(bad_line(line.number()));
    }
    let texts = texts_of(alloc, &line)?;
    Ok(texts)
}

// The first word of a line that has one.
fn first_word(alloc: Global, line: &TextLine<'_>) -> Result<Text, NoMemory>
    ensures { IfOk result (λ text. text ≡ spec.first_of (word_bytes (words_of line.now.bytes))) }
{
    match LineWords::new(line).next() {
        Some(word) => Text::from_bytes(alloc, word.bytes()),
        None => Ok(Text::new(alloc)),
    }
}

/// Takes a line of one word.
#[tactic(auto, unfolding(crate::specs::Reading::word_line, crate::specs::Rules::one_word))]
pub fn one_word(alloc: Global, cursor: &mut Cursor<'_>) -> Result<Text, Fail>
    ensures { Reads (rule.one_word cursor.old) result cursor.new }
{
    let line = cursor.said_line()?;
    if !has_words(&line, 1) {
        return Err(bad_line(line.number()));
    }
    let text = first_word(alloc, &line)?;
    Ok(text)
}

/// Takes a line of one number that is at least `least`, and answers the line and the number.
#[tactic(auto, unfolding(crate::specs::Rules::number_line, crate::specs::Rules::count_line))]
pub fn count_line<'a>(cursor: &mut Cursor<'a>, least: u8) -> Result<(TextLine<'a>, u128), Fail>
    ensures { Reads (rule.count_line least cursor.old) result cursor.new }
{
    let line = cursor.said_line()?;
    let Some(word) = lone_word(&line) else {
        return Err(bad_line(line.number()));
    };
    let number = number_from(&line, &word, least)?;
    Ok((line, number.value().unsigned_abs()))
}

// The word of a line that has one word.
fn lone_word<'a>(line: &TextLine<'a>) -> Option<TextWord<'a>>
    ensures { MatchOption result ((length (words_of line.now.bytes) == 1) ≡ false) (λ word. words_of line.now.bytes ≡ word ∷ []) }
{
    let mut words = LineWords::new(line);
    let word = words.next()?;
    match words.next() {
        Some(_) => None,
        None => Some(word),
    }
}
