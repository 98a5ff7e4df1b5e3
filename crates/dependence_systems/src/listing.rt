//! The list of systems of two SCoPs.

ghost use Rattle.std.specs.Prelude.{◌≡◌, ◌≤◌, ◌<◌, ◌^◌, ◌++◌, ◌∷◌, [], length, OnOk, IfOk, IfErr, IsSome};
ghost use Rattle.suite_base.specs.Limits.{max_systems};
ghost use Rattle.dependence_systems.specs.Entries.{between, entries, entries_of_source, entries_by_number, side_at, IsTooMany};
ghost use Rattle.dependence_systems.specs.Lookups.{IsCounted};
ghost use Rattle.dependence_systems.specs.Originals.{HasOriginals};
ghost use Rattle.dependence_systems.specs.Spans.{CoverEach};
ghost use Rattle.dependence_systems.specs.Sides.{member, sides, under};

use crate::dependences::{Dep, Ends};
use crate::entries::push_among;
use crate::level_tests::{count_common, is_before_in_text};
use crate::lookups::{numbered, original_of};
use crate::spans::{Span, are_apart, spans_of};
use scop_core::{Pieces, Schedule, Scop, Statement};
use std::alloc::Global;
use suite_base::{Fail, List, NoMemory};

/// Appends the entries of two statements with these numbers, each under a schedule.
fn push_between(
    list: &mut List<Dep>,
    source: u32,
    target: u32,
    first: &Statement,
    second: &Statement,
    before: &Schedule,
    after: &Schedule,
) -> Result<(), Fail>
    requires few { length list.old ≤ max_systems }
    requires first_count { IsCounted first.now before.now }
    requires second_count { IsCounted second.now after.now }
    ensures entries { OnOk result (list.new ≡ list.old ++ between (source, under first.now before.now) (target, under second.now after.now)) }
    ensures few { length list.new ≤ max_systems }
    ensures cause { IfErr result (IsTooMany (list.old ++ between (source, under first.now before.now) (target, under second.now after.now))) }
{
    let betas = before.betas.as_slice();
    let others = after.betas.as_slice();
    let common = count_common(betas, others) as u32;
    let in_text = is_before_in_text(betas, others);
    if common == 0 {
        if !in_text {
            return Ok(());
        }
    }
    let ends = Ends {
        source,
        target,
        source_parts: first.domain.len() as u32,
        target_parts: second.domain.len() as u32,
        common,
        in_text,
    };
    push_among(
        list,
        &ends,
        first.accesses.as_slice(),
        second.accesses.as_slice(),
    )
}

/// Appends the entries of statements `source` and `target` of `now`, from 1.
fn push_pair(
    list: &mut List<Dep>,
    old: &Scop,
    now: &Scop,
    pieces: &Pieces,
    spans: &[Span],
    source: u32,
    target: u32,
) -> Result<(), Fail>
    requires few { length list.old ≤ max_systems }
    requires originals { HasOriginals old.now now.now pieces.now }
    requires spans { CoverEach spans.now now.now.statements }
    requires source { IsSome (member now.now.statements source) }
    requires target { IsSome (member now.now.statements target) }
    ensures entries { OnOk result (list.new ≡ list.old ++ between (side_at (sides old.now now.now pieces.now) source) (side_at (sides old.now now.now pieces.now) target)) }
    ensures few { length list.new ≤ max_systems }
    ensures cause { IfErr result (IsTooMany (list.old ++ between (side_at (sides old.now now.now pieces.now) source) (side_at (sides old.now now.now pieces.now) target))) }
{
    let first = numbered(now.statements(), source);
    let second = numbered(now.statements(), target);
    if are_apart(numbered(spans, source), numbered(spans, target)) {
        return Ok(());
    }
    let before = numbered(old.statements(), original_of(pieces, source));
    let after = numbered(old.statements(), original_of(pieces, target));
    push_between(
        list,
        source,
        target,
        first,
        second,
        &before.schedule,
        &after.schedule,
    )
}

/// Appends the entries of source statement `source`, from 1.
fn push_source(
    list: &mut List<Dep>,
    old: &Scop,
    now: &Scop,
    pieces: &Pieces,
    spans: &[Span],
    source: u32,
) -> Result<(), Fail>
    requires few { length list.old ≤ max_systems }
    requires originals { HasOriginals old.now now.now pieces.now }
    requires spans { CoverEach spans.now now.now.statements }
    requires source { IsSome (member now.now.statements source) }
    ensures entries { OnOk result (list.new ≡ list.old ++ entries_of_source (sides old.now now.now pieces.now) (length now.now.statements) source) }
    ensures few { length list.new ≤ max_systems }
    ensures cause { IfErr result (IsTooMany (list.old ++ entries_of_source (sides old.now now.now pieces.now) (length now.now.statements) source)) }
{
    let count = now.statement_count();
    for k in 0..count {
        push_pair(list, old, now, pieces, spans, source, (k + 1) as u32)?;
    }
    Ok(())
}

/// The list of systems of statements of `now` under the schedules that their originals have in `old`,
/// by source statement, target statement, source access, target access, source part, target part and
/// level. It needs an original in `old` for each statement of `now`, by `pieces`. It refuses by `Limit`
/// exactly where the list is longer than 65,536.
pub fn deps(alloc: Global, old: &Scop, now: &Scop, pieces: &Pieces) -> Result<List<Dep>, Fail>
    requires { HasOriginals old.now now.now pieces.now }
    ensures list { IfOk result (λ list. list ≡ entries (sides old.now now.now pieces.now)) }
    ensures few { IfOk result (λ list. length list ≤ max_systems) }
    ensures cause { IfErr result (IsTooMany (entries (sides old.now now.now pieces.now))) }
{
    let spans = match spans_of(alloc, now.statements()) {
        Ok(spans) => spans,
        Err(NoMemory) => return Err(Fail::Memory),
    };
    let mut list = List::new(alloc);
    let count = now.statement_count();
    for j in 0..count {
        push_source(
            &mut list,
            old,
            now,
            pieces,
            spans.as_slice(),
            (j + 1) as u32,
        )?;
    }
    Ok(list)
}
