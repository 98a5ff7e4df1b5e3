//! Rows of coefficients: sums, multiples and negatives.

ghost use Rattle.std.specs.Prelude.{◌≡◌, ◌++◌, ◌∷◌, negsuc, length, IfOk, []};
ghost use Rattle.row_core.specs.Rows.{add_rows, scale};
ghost use Rattle.clan_rows.specs.Fitting.{RowFits, summed, fitting_row};

use crate::coefficients::{product_of, sum_of};
use row_core::{Coeff, DenseRow, negated};
use std::alloc::Global;
use suite_base::NoMemory;

// The sum of two rows, as far as both reach.
fn summed_row(alloc: Global, a: &DenseRow, b: &DenseRow) -> Result<Option<DenseRow>, NoMemory>
    requires { length a.now ≡ length b.now }
    ensures { IfOk result (λ row. RowFits (summed a.now b.now) row) }
{
    let mut row = DenseRow::new(alloc);
    for k in 0..a.len() {
        match sum_of(a.get(k).value(), b.get(k).value()) {
            None => return Ok(None),
            Some(entry) => row.push(entry)?,
        }
    }
    Ok(Some(row))
}

// The multiple of a row.
fn scaled_row(alloc: Global, p: Coeff, a: &DenseRow) -> Result<Option<DenseRow>, NoMemory>
    ensures { IfOk result (λ row. RowFits (scale p a.now) row) }
{
    let mut row = DenseRow::new(alloc);
    for k in 0..a.len() {
        match product_of(p, a.get(k)) {
            None => return Ok(None),
            Some(entry) => row.push(entry)?,
        }
    }
    Ok(Some(row))
}

/// The sum of two rows of one length; `None` where an entry is out of range.
#[tactic(auto, using(crate::proofs::Ranges::row_fits, crate::proofs::Ranges::summed_is))]
pub fn row_sum(alloc: Global, a: &DenseRow, b: &DenseRow) -> Result<Option<DenseRow>, NoMemory>
    requires { length a.now ≡ length b.now }
    ensures { IfOk result (λ row. row ≡ fitting_row (add_rows a.now b.now)) }
{
    summed_row(alloc, a, b)
}

/// The multiple of a row; `None` where an entry is out of range.
#[tactic(auto, using(crate::proofs::Ranges::row_fits))]
pub fn row_multiple(alloc: Global, p: Coeff, a: &DenseRow) -> Result<Option<DenseRow>, NoMemory>
    ensures { IfOk result (λ row. row ≡ fitting_row (scale p a.now)) }
{
    scaled_row(alloc, p, a)
}

/// The negative of a row.
#[tactic(auto, using(crate::proofs::Ranges::negated_is))]
pub fn row_opposite(alloc: Global, a: &DenseRow) -> Result<DenseRow, NoMemory>
    ensures { IfOk result (λ row. row ≡ scale (negsuc 0) a.now) }
{
    negated(alloc, a)
}

/// The difference of two rows of one length; `None` where an entry is out of range.
#[tactic(auto, using(crate::proofs::Ranges::length_of_scale))]
pub fn row_difference(
    alloc: Global,
    a: &DenseRow,
    b: &DenseRow,
) -> Result<Option<DenseRow>, NoMemory>
    requires { length a.now ≡ length b.now }
    ensures { IfOk result (λ row. row ≡ fitting_row (add_rows a.now (scale (negsuc 0) b.now))) }
{
    let negative = row_opposite(alloc, b)?;
    row_sum(alloc, a, &negative)
}

/// The row with one entry more.
pub fn row_with(alloc: Global, a: &DenseRow, entry: Coeff) -> Result<DenseRow, NoMemory>
    ensures { IfOk result (λ row. row ≡ a.now ++ entry ∷ []) }
{
    let mut row = a.copy(alloc)?;
    row.push(entry)?;
    Ok(row)
}
