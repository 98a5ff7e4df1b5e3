//! Arithmetic on dense rows, column by column. A sum is given up exactly where the absolute values of
//! its two products sum above 2^127 - 1, even where the sum itself would fit.

ghost use Rattle.std.specs.Prelude.{◌≡◌, ◌<◌, ◌≤◌, ◌^◌, pos, neg_ℤ, ◌+ℤ◌, ◌*ℤ◌, length, map, swap, IfOk, IfErr, OnOk, MatchOption};
ghost use Rattle.std.specs.Int.{int_signum};
ghost use Rattle.row_core.specs.Rows.{entry, combined, pair_weight, combined_weight, IsHeavy};

use crate::coeffs::Coeff;
use crate::dense_rows::DenseRow;
use crate::sums::Sum;
use std::alloc::Global;
use suite_base::NoMemory;

/// What keeps row arithmetic from its answer.
#[derive(Clone, Copy, Debug, PartialEq, Eq)]
pub enum RowFail {
    Memory,
    /// In some column the absolute values of the two products sum above 2^127 - 1.
    Overflow,
}

/// The row `p a + q b`, column by column; `a` and `b` have equal lengths. The limit is said twice: by
/// some heavy column, and by the greatest weight of a column.
pub fn combine(
    alloc: Global,
    p: Coeff,
    a: &DenseRow,
    q: Coeff,
    b: &DenseRow,
) -> Result<DenseRow, RowFail>
    requires { length a.now ≡ length b.now }
    ensures ok { IfOk result (λ row. row ≡ combined p a.now q b.now) }
    ensures fits { OnOk result (¬ IsHeavy p a.now q b.now) }
    ensures overflow { IfErr result (λ fail. fail ≡ RowFail.Overflow → IsHeavy p a.now q b.now) }
    ensures light { OnOk result (combined_weight p a.now q b.now < 2 ^ 127) }
    ensures heavy { IfErr result (λ fail. fail ≡ RowFail.Overflow → 2 ^ 127 ≤ combined_weight p a.now q b.now) }
{
    let mut row = DenseRow::new(alloc);
    for k in 0..a.len() {
        match combine_one(p, a.get(k), q, b.get(k)) {
            None => return Err(RowFail::Overflow),
            Some(entry) => {
                if row.push(entry).is_err() {
                    return Err(RowFail::Memory);
                }
            }
        }
    }
    Ok(row)
}

/// The row `a + q b`; as `combine` with the factor 1.
pub fn add_scaled(alloc: Global, a: &DenseRow, q: Coeff, b: &DenseRow) -> Result<DenseRow, RowFail>
    requires { length a.now ≡ length b.now }
    ensures ok { IfOk result (λ row. row ≡ combined (pos 1) a.now q b.now) }
    ensures fits { OnOk result (¬ IsHeavy (pos 1) a.now q b.now) }
    ensures overflow { IfErr result (λ fail. fail ≡ RowFail.Overflow → IsHeavy (pos 1) a.now q b.now) }
    ensures light { OnOk result (combined_weight (pos 1) a.now q b.now < 2 ^ 127) }
    ensures heavy { IfErr result (λ fail. fail ≡ RowFail.Overflow → 2 ^ 127 ≤ combined_weight (pos 1) a.now q b.now) }
{
    combine(alloc, Coeff::ONE, a, q, b)
}

/// The row `-a`. The negative of a coefficient is a coefficient, so only memory can be wanting.
pub fn negated(alloc: Global, a: &DenseRow) -> Result<DenseRow, NoMemory>
    ensures { IfOk result (λ row. row ≡ map neg_ℤ a.now) }
{
    let mut row = DenseRow::new(alloc);
    for k in 0..a.len() {
        row.push(a.get(k).negated())?;
    }
    Ok(row)
}

/// Lets the entries at `i` and `j`, both below the length, change places.
pub fn swap_columns(a: &mut DenseRow, i: usize, j: usize)
    requires first { i < length a.old }
    requires second { j < length a.old }
    ensures { a.new ≡ swap a.old i j }
{
    a.swap(i, j);
}

/// The sign of the entry at `k`, which is below the length: -1, 0 or 1.
pub fn value_sign(a: &DenseRow, k: usize) -> i8
    requires { k < length a.now }
    ensures { result ≡ int_signum (entry a.now k) }
{
    a.get(k).sign()
}

/// The sum of two products; `None` exactly where their absolute values sum above 2^127 - 1.
pub(crate) fn combine_one(p: Coeff, x: Coeff, q: Coeff, y: Coeff) -> Option<Coeff>
    ensures { MatchOption result (2 ^ 127 ≤ pair_weight p x q y)
        (λ sum. (sum ≡ (p *ℤ x) +ℤ (q *ℤ y)) × (pair_weight p x q y < 2 ^ 127)) }
{
    let first = Sum::zero().add(p, x)?;
    let both = first.add(q, y)?;
    Some(both.value())
}
