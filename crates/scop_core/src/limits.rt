//! The limits of a SCoP, in the order in which they are refused.

ghost use Rattle.std.specs.Prelude.{◌≡◌, ◌<◌, ◌≤◌, ◌+◌, ◌||◌, length, None, nat_lt, MatchOption};
ghost use Rattle.suite_base.specs.Limits.{max_statements};
ghost use Rattle.scop_core.specs.Assembly.{array_count, count_of, some_above, accesses_above, statement_above, accesses_many, has_many_parts, whole_limit, statement_limit, first_limit};

use relation_core::{Part, Relation};
use row_core::Coeff;
use scop_data::{AccessKind, RawStatement, ScopPieces};
use suite_base::{
    List, MAX_ACCESSES, MAX_ARRAYS, MAX_ITERATORS, MAX_LEVELS, MAX_LOCALS, MAX_PARAMETERS,
    MAX_PARTS, MAX_ROWS, MAX_STATEMENTS, MAX_SUBSCRIPTS, Refusal, Text, Which,
};

/// What is counted of a part.
#[derive(Clone, Copy, Debug, PartialEq, Eq)]
pub enum PartCount {
    OutputCount,
    LocalCount,
    RowCount,
}

// How many of them a part has.
fn count_in(count: PartCount, part: &Part) -> usize
    ensures { result ≡ count_of count part.now }
{
    match count {
        PartCount::OutputCount => part.shape().outputs,
        PartCount::LocalCount => part.shape().locals,
        PartCount::RowCount => part.row_count(),
    }
}

// Whether any part of `relation` has more than `most` of them.
fn passes(count: PartCount, most: usize, relation: &Relation) -> bool
    ensures { result ≡ some_above count most relation.now }
{
    let parts = relation.parts();
    for part in parts {
        if most < count_in(count, part) {
            return true;
        }
    }
    false
}

// Whether any access has a part with more than `most` of them.
fn accesses_pass(count: PartCount, most: usize, accesses: &[(AccessKind, Relation)]) -> bool
    ensures { result ≡ accesses_above count most accesses.now }
{
    for access in accesses {
        if passes(count, most, &access.1) {
            return true;
        }
    }
    false
}

// Whether any relation of a statement has a part with more than `most` of them.
fn statement_passes(count: PartCount, most: usize, raw: &RawStatement) -> bool
    ensures { result ≡ statement_above count most raw.now }
{
    passes(count, most, &raw.domain)
        || passes(count, most, &raw.scattering)
        || accesses_pass(count, most, raw.accesses.as_slice())
}

// Whether any access has too many parts.
fn accesses_have_many(accesses: &[(AccessKind, Relation)]) -> bool
    ensures { result ≡ accesses_many accesses.now }
{
    for access in accesses {
        if MAX_PARTS < access.1.len() {
            return true;
        }
    }
    false
}

// Whether any relation of a statement has too many parts.
fn has_many(raw: &RawStatement) -> bool
    ensures { result ≡ has_many_parts raw.now }
{
    MAX_PARTS < raw.domain.len()
        || MAX_PARTS < raw.scattering.len()
        || accesses_have_many(raw.accesses.as_slice())
}

// The first limit that statement number `k` passes.
fn passed_limit(k: u32, raw: &RawStatement) -> Option<Refusal>
    ensures { result ≡ statement_limit k raw.now }
{
    if passes(PartCount::OutputCount, MAX_ITERATORS, &raw.domain) {
        return Some(Refusal::Limit(Which::Iterators, k));
    }
    if passes(PartCount::OutputCount, 2 * MAX_LEVELS + 1, &raw.scattering) {
        return Some(Refusal::Limit(Which::Levels, k));
    }
    if statement_passes(PartCount::LocalCount, MAX_LOCALS, raw) {
        return Some(Refusal::Limit(Which::Locals, k));
    }
    if statement_passes(PartCount::RowCount, MAX_ROWS, raw) {
        return Some(Refusal::Limit(Which::Rows, k));
    }
    if has_many(raw) {
        return Some(Refusal::Limit(Which::Parts, k));
    }
    if MAX_ACCESSES < raw.accesses.len() {
        return Some(Refusal::Limit(Which::Accesses, k));
    }
    let most = MAX_SUBSCRIPTS + 1;
    if accesses_pass(PartCount::OutputCount, most, raw.accesses.as_slice()) {
        return Some(Refusal::Limit(Which::Subscripts, k));
    }
    None
}

/// The first limit of the first statement that passes one.
pub fn statements_limit(raws: &[RawStatement]) -> Option<Refusal>
    requires { length raws.now ≤ max_statements }
    ensures { result ≡ first_limit 1 raws.now }
{
    for k in 0..raws.len() {
        let limit = passed_limit(k as u32 + 1, &raws[k]);
        if limit.is_some() {
            return limit;
        }
    }
    None
}

// The number of arrays that are present.
fn count_arrays(arrays: &Option<List<(Coeff, Text)>>) -> usize
    ensures { result ≡ array_count arrays.now }
{
    match arrays {
        None => 0,
        Some(arrays) => arrays.len(),
    }
}

/// The first limit that the whole passes.
pub fn pieces_limit(pieces: &ScopPieces) -> Option<Refusal>
    ensures answer { result ≡ whole_limit pieces.now }
    ensures none { result ≡ None → length pieces.now.statements ≤ max_statements }
{
    if MAX_STATEMENTS < pieces.statements.len() {
        return Some(Refusal::Limit(Which::Statements, 0));
    }
    if MAX_PARAMETERS < pieces.context.shape().parameters {
        return Some(Refusal::Limit(Which::Parameters, 0));
    }
    if MAX_ROWS < pieces.context.row_count() {
        return Some(Refusal::Limit(Which::Rows, 0));
    }
    if MAX_ARRAYS < count_arrays(&pieces.arrays) {
        return Some(Refusal::Limit(Which::Arrays, 0));
    }
    None
}
