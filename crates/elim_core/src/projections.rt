//! Projection of one column, by Fourier-Motzkin elimination: each row with a positive entry there is
//! crossed with each row with a negative one, so that the column cancels.

ghost use Rattle.std.specs.Prelude.{◌≡◌, ◌<◌, ◌≤◌, ◌+◌, ◌*◌, ◌^◌, ◌++◌, length, IfOk, IfErr, OnOk, IsTrue, ◌↔◌};
ghost use Rattle.elim_core.specs.Elimination.{flat_rows, crossing, crossing_weight, against, against_weight, crossed, crossed_weight, projected};
ghost use Rattle.elim_core.specs.RowLists.{positives, negatives};
ghost use Rattle.elim_core.specs.Tableaux.{with_rows};
ghost use Rattle.suite_base.specs.Limits.{max_stage_rows};

use crate::signs::{absolute, is_negative, is_positive, is_zero};
use crate::tableaux::Tableau;
use crate::verdicts::ElimFail;
use crate::working_rows::WorkingRow;
use relation_core::RowKind;
use row_core::Row;
use std::alloc::Global;
use suite_base::{MAX_STAGE_ROWS, NoMemory};

/// The rows without column `j`, then each crossing of a positive with a negative row, in order.
#[tactic(auto, using(crate::proofs::Widths::wide_projected))]
pub fn project<R: Row>(alloc: Global, j: usize, tableau: Tableau<R>) -> Result<Tableau<R>, ElimFail>
    requires { j < tableau.variables }
    ensures ok { IfOk result (λ made. made ≡ with_rows tableau (projected j tableau.rows)) }
    ensures overflow { IfErr result (λ fail. fail ≡ ElimFail.Overflow → 2 ^ 127 ≤ crossed_weight j tableau.rows tableau.rows) }
    ensures rows { IfErr result (λ fail. fail ≡ ElimFail.TooManyRows → max_stage_rows < length (projected j tableau.rows)) }
{
    if is_too_many(j, &tableau) {
        return Err(ElimFail::TooManyRows);
    }
    let n = tableau.variables();
    let width = tableau.width();
    let mut made = cross_all(alloc, j, &tableau)?;
    let mut kept = keep_flat(alloc, j, tableau)?;
    kept.append(&mut made)?;
    Ok(Tableau::new(n, width, kept))
}

// Whether the projection of column `j` has more than 16,384 rows.
fn is_too_many<R: Row>(j: usize, tableau: &Tableau<R>) -> bool
    requires { j < tableau.now.variables }
    ensures { IsTrue result → max_stage_rows < length (projected j tableau.now.rows) }
{
    let mut rising: usize = 0;
    let mut falling: usize = 0;
    for k in 0..tableau.row_count() {
        let c = tableau.row(k).entry(j);
        if is_positive(c) {
            rising += 1;
        } else if is_negative(c) {
            falling += 1;
        }
    }
    is_above(tableau.row_count() - rising - falling, rising, falling)
}

// Whether `flat + rising * falling` is above 16,384.
fn is_above(flat: usize, rising: usize, falling: usize) -> bool
    ensures { IsTrue result ↔ (max_stage_rows < flat + rising * falling) }
{
    match rising.checked_mul(falling) {
        None => true,
        Some(product) => flat > MAX_STAGE_ROWS || product > MAX_STAGE_ROWS - flat,
    }
}

// The rows without column `j`.
fn keep_flat<R: Row>(
    alloc: Global,
    j: usize,
    tableau: Tableau<R>,
) -> Result<Vec<WorkingRow<R>>, NoMemory>
    requires { j < tableau.variables }
    ensures { IfOk result (λ kept. kept.items ≡ flat_rows j tableau.rows) }
{
    let mut kept = Vec::new(alloc);
    for w in tableau.into_rows() {
        if is_zero(w.entry(j)) {
            kept.push(w)?;
        }
    }
    Ok(kept)
}

// Each row with a positive entry against each row with a negative one.
fn cross_all<R: Row>(
    alloc: Global,
    j: usize,
    tableau: &Tableau<R>,
) -> Result<Vec<WorkingRow<R>>, ElimFail>
    requires { j < tableau.now.variables }
    ensures ok { IfOk result (λ made. made.items ≡ crossed j tableau.now.rows tableau.now.rows) }
    ensures overflow { IfErr result (λ fail. fail ≡ ElimFail.Overflow → 2 ^ 127 ≤ crossed_weight j tableau.now.rows tableau.now.rows) }
    ensures rows { IfErr result (λ fail. ¬ (fail ≡ ElimFail.TooManyRows)) }
{
    let mut made = Vec::new(alloc);
    for k in 0..tableau.row_count() {
        let p = tableau.row(k);
        if is_positive(p.entry(j)) {
            cross_with(alloc, j, p, tableau, &mut made)?;
        }
    }
    Ok(made)
}

// Appends the crossings of `p` with each row with a negative entry.
fn cross_with<R: Row>(
    alloc: Global,
    j: usize,
    p: &WorkingRow<R>,
    tableau: &Tableau<R>,
    made: &mut Vec<WorkingRow<R>>,
) -> Result<(), ElimFail>
    requires place { j < tableau.now.variables }
    requires row { length p.now.entries ≡ tableau.now.width }
    ensures ok { OnOk result (made.new.items ≡ made.old.items ++ against j p.now tableau.now.rows) }
    ensures overflow { IfErr result (λ fail. fail ≡ ElimFail.Overflow → 2 ^ 127 ≤ against_weight j p.now tableau.now.rows) }
    ensures rows { IfErr result (λ fail. ¬ (fail ≡ ElimFail.TooManyRows)) }
{
    for k in 0..tableau.row_count() {
        let q = tableau.row(k);
        if is_negative(q.entry(j)) {
            let w = cross(alloc, j, p, q)?;
            made.push(w)?;
        }
    }
    Ok(())
}

// The crossing of `p` and `q` in column `j`.
fn cross<R: Row>(
    alloc: Global,
    j: usize,
    p: &WorkingRow<R>,
    q: &WorkingRow<R>,
) -> Result<WorkingRow<R>, ElimFail>
    requires place { j < length p.now.entries }
    requires row { length q.now.entries ≡ length p.now.entries }
    ensures ok { IfOk result (λ w. w ≡ crossing j p.now q.now) }
    ensures overflow { IfErr result (λ fail. fail ≡ ElimFail.Overflow → 2 ^ 127 ≤ crossing_weight j p.now q.now) }
    ensures rows { IfErr result (λ fail. ¬ (fail ≡ ElimFail.TooManyRows)) }
{
    WorkingRow::combined(
        alloc,
        RowKind::AtLeast,
        absolute(q.entry(j)),
        p,
        p.entry(j),
        q,
    )
}
