//! The line of six numbers that begins a part.

ghost use Rattle.std.specs.Prelude.{◌≡◌, ◌<◌, ◌+◌, ◌==◌, IfOk, OnOk, length};
ghost use Rattle.relation_core.specs.Systems.{HasLimits, columns, width};
ghost use Rattle.scop_reader.specs.Lines.{words_of};
ghost use Rattle.scop_reader.specs.Reading.{Reads, Gives, mapped, numbers_in, is_count};
ghost use Rattle.scop_reader.specs.Rules as spec;
ghost use Rattle.scop_reader.specs.Headers.{TakesCount, IsSmall, IsSmallRole};

use crate::cursors::{Cursor, bad_line};
use crate::line_words::{LineWords, has_words};
use crate::number_words::number_from;
use crate::roles::Role;
use crate::text_lines::TextLine;
use relation_core::Shape;
use std::marker::Model;
use suite_base::{
    Fail, MAX_ITERATORS, MAX_LEVELS, MAX_LOCALS, MAX_PARAMETERS, MAX_ROWS, MAX_SUBSCRIPTS, Refusal,
    Which,
};

/// The six numbers as they stand. Contracts see them as a header.
#[derive(Drop)]
pub struct Counts {
    rows: u128,
    columns: u128,
    outputs: u128,
    inputs: u128,
    locals: u128,
    parameters: u128,
}

impl Model for Counts {
    ghost use Rattle.scop_reader.specs.Rules.{Header};

    ghost Value = { Header };

    ghost view = { λ c. record { rows = c.rows; columns = c.columns; shape = record { outputs = c.outputs; inputs = c.inputs; locals = c.locals; parameters = c.parameters } } };
}

/// A header within its limits.
#[derive(Drop)]
pub struct PartHeader {
    rows: usize,
    columns: usize,
    shape: Shape,
}

impl Model for PartHeader {
    ghost use Rattle.scop_reader.specs.Rules.{Header};

    ghost Value = { Header };

    ghost view = { λ h. record { rows = h.rows; columns = h.columns; shape = h.shape } };
}

impl PartHeader {
    /// The number of rows.
    pub fn rows(&self) -> usize
        ensures { result ≡ self.now.rows }
    {
        self.rows
    }

    /// The number of words of each row: its kind, an entry for each column, the constant.
    pub fn columns(&self) -> usize
        ensures { result ≡ self.now.columns }
    {
        self.columns
    }

    /// The shape of the part.
    pub fn shape(&self) -> Shape
        ensures { result ≡ self.now.shape }
    {
        self.shape
    }
}

// Takes a word, which there has to be, as a number that is not negative.
fn next_count(line: &TextLine<'_>, words: &mut LineWords<'_>) -> Result<u128, Fail>
    requires { 0 < length words.old }
    ensures number { TakesCount line.now words.old result words.new }
    ensures size { OnOk result (length words.new + 1 ≡ length words.old) }
{
    match words.next() {
        Some(word) => Ok(number_from(line, &word, 0)?.value().unsigned_abs()),
        None => Ok(0),
    }
}

// The six numbers of a line of six words.
fn counts_of(line: &TextLine<'_>) -> Result<Counts, Fail>
    requires { length (words_of line.now.bytes) ≡ 6 }
    ensures { Gives (mapped (λ ns. spec.header_of (spec.naturals ns)) (numbers_in line.now is_count (words_of line.now.bytes))) result }
{
    let mut words = LineWords::new(line);
    let rows = next_count(line, &mut words)?;
    let columns = next_count(line, &mut words)?;
    let outputs = next_count(line, &mut words)?;
    let inputs = next_count(line, &mut words)?;
    let locals = next_count(line, &mut words)?;
    let parameters = next_count(line, &mut words)?;
    Ok(Counts {
        rows,
        columns,
        outputs,
        inputs,
        locals,
        parameters,
    })
}

// Takes a line of six numbers that are not negative.
#[tactic(auto, unfolding(crate::specs::Rules::number_line, crate::specs::Rules::counts_line))]
fn counts_line<'a>(cursor: &mut Cursor<'a>) -> Result<(TextLine<'a>, Counts), Fail>
    ensures { Reads (spec.counts_line cursor.old) result cursor.new }
{
    let line = cursor.said_line()?;
    if !has_words(&line, 6) {
        return Err(bad_line(line.number()));
    }
    let counts = counts_of(&line)?;
    Ok((line, counts))
}

// Whether there are as many columns as the shape has, with the kind and the constant.
fn has_its_columns(counts: &Counts) -> bool
    ensures { result ≡ (counts.now.columns == columns counts.now.shape + 2) }
{
    let wanted = counts.columns;
    let Some(first) = counts.outputs.checked_add(counts.inputs) else {
        return false;
    };
    let Some(second) = first.checked_add(counts.locals) else {
        return false;
    };
    let Some(third) = second.checked_add(counts.parameters) else {
        return false;
    };
    let Some(all) = third.checked_add(2) else {
        return false;
    };
    wanted == all
}

// Whether the outputs of a part are those of the parts before it.
fn is_known(iterators: Option<usize>, outputs: u128) -> bool
    ensures { result ≡ spec.is_known iterators outputs }
{
    match iterators {
        None => true,
        Some(known) => outputs == known as u128,
    }
}

// Whether a part of this role can have this shape.
fn suits(role: Role, counts: &Counts) -> bool
    ensures { result ≡ spec.suits role counts.now.shape }
{
    match role {
        Role::Context => counts.outputs == 0 && counts.inputs == 0 && counts.locals == 0,
        Role::Domain {
            parameters,
            iterators,
        } => {
            counts.parameters == parameters as u128
                && counts.inputs == 0
                && is_known(iterators, counts.outputs)
        }
        Role::Scattering {
            parameters,
            iterators,
        }
        | Role::Access {
            parameters,
            iterators,
        } => counts.parameters == parameters as u128 && counts.inputs == iterators as u128,
    }
}

// The most outputs of a part of this role.
fn most_outputs(role: Role) -> u128
    ensures { result ≡ spec.most_outputs role }
{
    match role {
        Role::Context => 0,
        Role::Domain { .. } => MAX_ITERATORS as u128,
        Role::Scattering { .. } => 2 * MAX_LEVELS as u128 + 1,
        Role::Access { .. } => MAX_SUBSCRIPTS as u128 + 1,
    }
}

// What the outputs of a part of this role are.
fn outputs_are(role: Role) -> Which
    ensures { result ≡ spec.outputs_are role }
{
    match role {
        Role::Context | Role::Domain { .. } => Which::Iterators,
        Role::Scattering { .. } => Which::Levels,
        Role::Access { .. } => Which::Subscripts,
    }
}

// The first limit that a header passes, of statement `k` or of the whole where `k` is 0.
fn header_limit(role: Role, k: u32, counts: &Counts) -> Option<Refusal>
    ensures { result ≡ spec.header_limit role k counts.now }
{
    if counts.rows > MAX_ROWS as u128 {
        return Some(Refusal::Limit(Which::Rows, k));
    }
    if counts.outputs > most_outputs(role) {
        return Some(Refusal::Limit(outputs_are(role), k));
    }
    if counts.locals > MAX_LOCALS as u128 {
        return Some(Refusal::Limit(Which::Locals, k));
    }
    if counts.parameters > MAX_PARAMETERS as u128 {
        return Some(Refusal::Limit(Which::Parameters, k));
    }
    None
}

// The header of numbers that are small.
fn header_from(counts: &Counts) -> PartHeader
    requires { IsSmall counts.now }
    ensures { result ≡ counts.now }
{
    let shape = Shape {
        outputs: counts.outputs as usize,
        inputs: counts.inputs as usize,
        locals: counts.locals as usize,
        parameters: counts.parameters as usize,
    };
    PartHeader {
        rows: counts.rows as usize,
        columns: counts.columns as usize,
        shape,
    }
}

/// Takes the header of a part of this role, of statement `k` or of the context where `k` is 0.
#[tactic(auto, unfolding(crate::specs::Rules::header_line))]
pub fn header_line(cursor: &mut Cursor<'_>, role: Role, k: u32) -> Result<PartHeader, Fail>
    requires { IsSmallRole role }
    ensures reads { Reads (spec.header_line role k cursor.old) result cursor.new }
    ensures limits { IfOk result (λ header. HasLimits header.shape) }
    ensures width { IfOk result (λ header. header.columns ≡ width header.shape + 1) }
{
    let (line, counts) = counts_line(cursor)?;
    if !has_its_columns(&counts) || !suits(role, &counts) {
        return Err(bad_line(line.number()));
    }
    if let Some(limit) = header_limit(role, k, &counts) {
        return Err(Fail::Refused(limit));
    }
    Ok(header_from(&counts))
}
