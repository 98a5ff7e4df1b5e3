//! Substitution: an equality is solved for its last variable, and leaves the rows.

ghost use Rattle.std.specs.Prelude.{◌≡◌, ◌<◌, ◌≤◌, ◌^◌, length, remove, None, IfOk, IfErr, MatchOption};
ghost use Rattle.relation_core.specs.Systems.{row_at};
ghost use Rattle.elim_core.specs.Elimination.{first_equality, without_equality, substituted_row, substituted_row_weight, substituted, substituted_weight};
ghost use Rattle.elim_core.specs.Tableaux.{with_rows};

use crate::signs::{absolute, is_zero, turned};
use crate::tableaux::Tableau;
use crate::verdicts::ElimFail;
use crate::working_rows::WorkingRow;
use row_core::Row;
use std::alloc::Global;

/// The place of the first equality.
pub fn find_equality<R: Row>(tableau: &Tableau<R>) -> Option<usize>
    ensures { MatchOption result (first_equality tableau.now.rows ≡ None)
        (λ k. (k < length tableau.now.rows) × (first_equality tableau.now.rows ≡ Some (row_at tableau.now.rows k))
        × (without_equality tableau.now.rows ≡ remove tableau.now.rows k)) }
{
    for k in 0..tableau.row_count() {
        if tableau.row(k).is_equality() {
            return Some(k);
        }
    }
    None
}

/// Takes the first equality out of the rows.
pub fn take_equality<R: Row>(tableau: &mut Tableau<R>) -> Option<WorkingRow<R>>
    ensures row { MatchOption result (first_equality tableau.old.rows ≡ None)
        (λ e. (first_equality tableau.old.rows ≡ Some e) × (length e.entries ≡ tableau.old.width)) }
    ensures rest { MatchOption result (tableau.new ≡ tableau.old)
        (λ e. tableau.new ≡ with_rows tableau.old (without_equality tableau.old.rows)) }
{
    let k = find_equality(tableau)?;
    Some(tableau.take(k))
}

/// The rows after `e` is solved for column `j`, where its entry isn't 0.
pub fn substitute<R: Row>(
    alloc: Global,
    j: usize,
    e: &WorkingRow<R>,
    tableau: Tableau<R>,
) -> Result<Tableau<R>, ElimFail>
    requires place { j < tableau.width }
    requires row { length e.now.entries ≡ tableau.width }
    ensures ok { IfOk result (λ made. made ≡ with_rows tableau (substituted j e.now tableau.rows)) }
    ensures overflow { IfErr result (λ fail. fail ≡ ElimFail.Overflow → 2 ^ 127 ≤ substituted_weight j e.now tableau.rows) }
    ensures rows { IfErr result (λ fail. ¬ (fail ≡ ElimFail.TooManyRows)) }
{
    let n = tableau.variables();
    let width = tableau.width();
    let mut made = Vec::with_capacity(alloc, tableau.row_count())?;
    for w in tableau.into_rows() {
        let next = substitute_row(alloc, j, e, w)?;
        made.push(next)?;
    }
    Ok(Tableau::new(n, width, made))
}

// One row after `e` is solved for column `j`; a row without that column stays.
fn substitute_row<R: Row>(
    alloc: Global,
    j: usize,
    e: &WorkingRow<R>,
    w: WorkingRow<R>,
) -> Result<WorkingRow<R>, ElimFail>
    requires place { j < length e.now.entries }
    requires row { length w.entries ≡ length e.now.entries }
    ensures ok { IfOk result (λ made. made ≡ substituted_row j e.now w) }
    ensures overflow { IfErr result (λ fail. fail ≡ ElimFail.Overflow → 2 ^ 127 ≤ substituted_row_weight j e.now w) }
    ensures rows { IfErr result (λ fail. ¬ (fail ≡ ElimFail.TooManyRows)) }
{
    let a = e.entry(j);
    let b = w.entry(j);
    if is_zero(b) {
        return Ok(w);
    }
    WorkingRow::combined(alloc, w.kind(), absolute(a), &w, turned(a, b), e)
}

/// As `substitute`, but the rows stay, and a row without that column is copied.
pub fn substitute_copies<R: Row>(
    alloc: Global,
    j: usize,
    e: &WorkingRow<R>,
    tableau: &Tableau<R>,
) -> Result<Tableau<R>, ElimFail>
    requires place { j < tableau.now.width }
    requires row { length e.now.entries ≡ tableau.now.width }
    ensures { IfOk result (λ made. made ≡ with_rows tableau.now (substituted j e.now tableau.now.rows)) }
{
    let mut made = Vec::with_capacity(alloc, tableau.row_count())?;
    for k in 0..tableau.row_count() {
        let next = substitute_copy(alloc, j, e, tableau.row(k))?;
        made.push(next)?;
    }
    Ok(Tableau::new(tableau.variables(), tableau.width(), made))
}

// One row after `e` is solved for column `j`; a row without that column is copied.
fn substitute_copy<R: Row>(
    alloc: Global,
    j: usize,
    e: &WorkingRow<R>,
    w: &WorkingRow<R>,
) -> Result<WorkingRow<R>, ElimFail>
    requires place { j < length e.now.entries }
    requires row { length w.now.entries ≡ length e.now.entries }
    ensures { IfOk result (λ made. made ≡ substituted_row j e.now w.now) }
{
    let a = e.entry(j);
    let b = w.entry(j);
    if is_zero(b) {
        return Ok(w.copy(alloc)?);
    }
    WorkingRow::combined(alloc, w.kind(), absolute(a), w, turned(a, b), e)
}
