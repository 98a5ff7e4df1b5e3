//! Which statements have no accesses that can meet, from a summary of each.

ghost use Rattle.std.specs.Prelude.{◌≡◌, ◌≤ℤ◌, true, [], ◌∷◌, ◌++◌, IfOk};
ghost use Rattle.dependence_systems.specs.Spans.{IsIn, IsWider, Covers, CoverEach, AreApart};

use row_core::Coeff;
use scop_core::{Access, AccessKind, Statement};
use std::alloc::Global;
use suite_base::{List, NoMemory};

/// The least and the greatest array of some accesses, and whether one of them writes.
#[derive(Clone, Copy, Debug, PartialEq, Eq)]
pub struct Span {
    pub low: Coeff,
    pub high: Coeff,
    pub writes: bool,
}

/// The span without arrays.
fn no_span() -> Span {
    Span {
        low: Coeff::bounded(i128::MAX),
        high: Coeff::bounded(i128::MAX).negated(),
        writes: false,
    }
}

/// The lesser of two coefficients.
fn lesser(a: Coeff, b: Coeff) -> Coeff
    ensures first { result ≤ℤ a }
    ensures second { result ≤ℤ b }
{
    if a.value() < b.value() { a } else { b }
}

/// The greater of two coefficients.
fn greater(a: Coeff, b: Coeff) -> Coeff
    ensures first { a ≤ℤ result }
    ensures second { b ≤ℤ result }
{
    if a.value() < b.value() { b } else { a }
}

/// Whether an access of this kind only reads.
fn only_reads(kind: AccessKind) -> bool
    ensures { result ≡ true → kind ≡ AccessKind.Read }
{
    match kind {
        AccessKind::Read => true,
        AccessKind::Write => false,
        AccessKind::MayWrite => false,
    }
}

/// The span with one access more.
fn widened(span: Span, access: &Access) -> Span
    ensures inside { IsIn result access.now }
    ensures wider { IsWider span result }
{
    let writes = if only_reads(access.kind) {
        span.writes
    } else {
        true
    };
    Span {
        low: lesser(span.low, access.array),
        high: greater(span.high, access.array),
        writes,
    }
}

/// The span of accesses.
fn span_of(accesses: &[Access]) -> Span
    ensures { Covers result accesses.now }
{
    let mut span = no_span();
    for k in 0..accesses.len() {
        span = widened(span, &accesses[k]);
    }
    span
}

/// The span of each statement.
pub fn spans_of(alloc: Global, statements: &[Statement]) -> Result<List<Span>, NoMemory>
    ensures { IfOk result (λ spans. CoverEach spans statements.now) }
{
    let mut spans = List::new(alloc);
    for k in 0..statements.len() {
        spans.push(span_of(statements[k].accesses.as_slice()))?;
    }
    Ok(spans)
}

/// Whether the spans show that no access of the one and of the other can meet where one writes.
pub fn are_apart(s: &Span, t: &Span) -> bool
    ensures { result ≡ true → AreApart s.now t.now }
{
    if !s.writes {
        if !t.writes {
            return true;
        }
    }
    if s.high.value() < t.low.value() {
        return true;
    }
    t.high.value() < s.low.value()
}
