//! Rows built from pieces: zeros, a coefficient among zeros, and the coefficients of a value.

ghost use Rattle.std.specs.Prelude.{◌≡◌, ◌<◌, ◌^◌, ◌+ℤ◌, pos, neg_ℤ, unsigned_abs, ◌∷◌, ◌++◌, length, map, IfOk, OnOk};
ghost use Rattle.row_core.specs.Rows.{entry};
ghost use Rattle.scop_data.specs.SolvedRows.{zeros, unit, raised};

use row_core::{Coeff, DenseRow};
use std::alloc::Global;
use suite_base::NoMemory;

/// The row of `n` zeros.
pub fn zero_row(alloc: Global, n: usize) -> Result<DenseRow, NoMemory>
    ensures { IfOk result (λ row. row ≡ zeros n) }
{
    let mut row = DenseRow::with_capacity(alloc, n)?;
    row.push_zeros(n)?;
    Ok(row)
}

/// Appends `n` entries that are zero but for `coeff` at place `k`.
pub fn push_unit(row: &mut DenseRow, n: usize, k: usize, coeff: Coeff) -> Result<(), NoMemory>
    requires { k < n }
    ensures { OnOk result (row.new ≡ row.old ++ unit n k coeff) }
{
    row.push_zeros(k)?;
    row.push(coeff)?;
    row.push_zeros(n - (k + 1))
}

/// Appends the negatives of all of `coeffs`.
pub fn push_negated(row: &mut DenseRow, coeffs: &[Coeff]) -> Result<(), NoMemory>
    ensures { OnOk result (row.new ≡ row.old ++ map neg_ℤ coeffs.now) }
{
    for coeff in coeffs {
        row.push(coeff.negated())?;
    }
    Ok(())
}

/// Appends all of `coeffs`, with `by` added to the one at place `k`.
pub fn push_raised(
    row: &mut DenseRow,
    coeffs: &[Coeff],
    k: usize,
    by: Coeff,
) -> Result<(), NoMemory>
    requires place { k < length coeffs.now }
    requires range { unsigned_abs (entry coeffs.now k +ℤ by) < 2 ^ 127 }
    ensures { OnOk result (row.new ≡ row.old ++ raised coeffs.now k by) }
{
    row.push_all(&coeffs[..k])?;
    row.push(sum_of(coeffs[k], by))?;
    row.push_all(&coeffs[k + 1..])
}

/// Appends the negatives of all of `coeffs`, once `by` is added to the one at place `k`.
#[tactic(auto, using(crate::proofs::RowLists::negated_pieces))]
pub fn push_raised_negated(
    row: &mut DenseRow,
    coeffs: &[Coeff],
    k: usize,
    by: Coeff,
) -> Result<(), NoMemory>
    requires place { k < length coeffs.now }
    requires range { unsigned_abs (entry coeffs.now k +ℤ by) < 2 ^ 127 }
    ensures { OnOk result (row.new ≡ row.old ++ map neg_ℤ (raised coeffs.now k by)) }
{
    push_negated(row, &coeffs[..k])?;
    row.push(sum_of(coeffs[k], by).negated())?;
    push_negated(row, &coeffs[k + 1..])
}

/// The sum of two coefficients, which is in range.
pub fn sum_of(a: Coeff, b: Coeff) -> Coeff
    requires { unsigned_abs (a +ℤ b) < 2 ^ 127 }
    ensures { result ≡ a +ℤ b }
{
    Coeff::bounded(a.value() + b.value())
}
