//! Statements: their relations, their extensions.

ghost use Rattle.std.specs.Prelude.{◌≤◌, [], IfOk};
ghost use Rattle.suite_base.specs.Limits.{max_statements};
ghost use Rattle.scop_core.specs.Printable.{body_name};
ghost use Rattle.scop_reader.specs.Reading.{Reads, ReadsTo};
ghost use Rattle.scop_reader.specs.Rules as spec;

use crate::bodies::body;
use crate::cursors::{Cursor, bad_line};
use crate::extension_names::{is_opening, opened_name};
use crate::kept_lines::kept;
use crate::line_rules::count_line;
use crate::relation_rules::{accesses, domain, outputs_of_first, scattering};
use row_core::Coeff;
use scop_core::{Body, Extension, RawStatement};
use std::alloc::Global;
use suite_base::{Fail, List, MAX_ACCESSES, MAX_STATEMENTS, Refusal, Which};

// Takes an extension of a statement of so many iterators: its body, at most once, or one that is kept.
#[tactic(auto, unfolding(crate::specs::Rules::extension))]
fn extension(
    alloc: Global,
    cursor: &mut Cursor<'_>,
    iterators: usize,
    special: &mut Option<Body>,
    others: &mut List<Extension>,
) -> Result<(), Fail>
    ensures { ReadsTo (spec.extension body_name (spec.body iterators) (spec.extensions_of special.old others.old) cursor.old) result (spec.extensions_of special.new others.new) cursor.new }
{
    let line = cursor.said_line()?;
    let text = line.content();
    if !is_opening(text) {
        return Err(bad_line(line.number()));
    }
    let name = opened_name(text);
    if name == b"body".as_slice() {
        if special.is_some() {
            return Err(bad_line(line.number()));
        }
        let made = body(alloc, cursor, iterators)?;
        *special = Some(made);
    } else {
        let made = kept(alloc, cursor, name)?;
        others.push(made)?;
    }
    Ok(())
}

// Takes so many extensions of a statement of so many iterators.
fn extensions(
    alloc: Global,
    cursor: &mut Cursor<'_>,
    iterators: usize,
    count: u128,
    special: &mut Option<Body>,
    others: &mut List<Extension>,
) -> Result<(), Fail>
    ensures { ReadsTo (spec.extensions_from iterators count (spec.extensions_of special.old others.old) cursor.old) result (spec.extensions_of special.new others.new) cursor.new }
{
    let mut left = count;
    while left > 0 {
        extension(alloc, cursor, iterators, special, others)?;
        left -= 1;
    }
    Ok(())
}

// Takes the number of relations of statement `k`: domain, scattering and at most 256 accesses.
#[tactic(auto, unfolding(crate::specs::Rules::relation_count))]
fn relation_count(cursor: &mut Cursor<'_>, k: u32) -> Result<usize, Fail>
    ensures { Reads (spec.relation_count k cursor.old) result cursor.new }
{
    let (_line, count) = count_line(cursor, 2)?;
    if count > MAX_ACCESSES as u128 + 2 {
        return Err(Fail::Refused(Refusal::Limit(Which::Accesses, k)));
    }
    Ok(count as usize)
}

// Takes statement `k`, over so many parameters.
#[tactic(auto, unfolding(crate::specs::Rules::statement))]
fn statement(
    alloc: Global,
    cursor: &mut Cursor<'_>,
    parameters: usize,
    k: u32,
    entries: &mut Vec<Coeff>,
) -> Result<RawStatement, Fail>
    ensures { Reads (spec.statement parameters k cursor.old) result cursor.new }
{
    let relations = relation_count(cursor, k)?;
    let domain = domain(alloc, cursor, parameters, k, entries)?;
    let iterators = outputs_of_first(&domain);
    let scattering = scattering(alloc, cursor, parameters, iterators, k, entries)?;
    let count = relations.saturating_sub(2);
    let accesses = accesses(alloc, cursor, parameters, iterators, k, count, entries)?;
    let (_line, count) = count_line(cursor, 0)?;
    let mut body = None;
    let mut kept = List::new(alloc);
    extensions(alloc, cursor, iterators, count, &mut body, &mut kept)?;
    Ok(RawStatement {
        domain,
        scattering,
        accesses,
        body,
        extensions: kept,
    })
}

/// Takes so many statements, at most 1,024, over so many parameters.
pub fn statements(
    alloc: Global,
    cursor: &mut Cursor<'_>,
    parameters: usize,
    count: usize,
    entries: &mut Vec<Coeff>,
) -> Result<List<RawStatement>, Fail>
    requires { count ≤ max_statements }
    ensures { Reads (spec.statements_from parameters 1 count [] cursor.old) result cursor.new }
{
    let mut made = List::new(alloc);
    for k in 0..count {
        let next = statement(alloc, cursor, parameters, k as u32 + 1, entries)?;
        made.push(next)?;
    }
    Ok(made)
}

/// Takes the number of statements, at most 1,024.
#[tactic(auto, unfolding(crate::specs::Rules::statement_count))]
pub fn statement_count(cursor: &mut Cursor<'_>) -> Result<usize, Fail>
    ensures reads { Reads (spec.statement_count cursor.old) result cursor.new }
    ensures limit { IfOk result (λ count. count ≤ max_statements) }
{
    let (_line, count) = count_line(cursor, 0)?;
    if count > MAX_STATEMENTS as u128 {
        return Err(Fail::Refused(Refusal::Limit(Which::Statements, 0)));
    }
    Ok(count as usize)
}
