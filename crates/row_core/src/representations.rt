//! What a row of coefficients offers, in whatever way it keeps them.

use crate::arithmetic::{RowFail, combine};
use crate::coeffs::Coeff;
use crate::dense_rows::DenseRow;
use crate::sparse_arithmetic::combine_sparse;
use crate::sparse_rows::SparseRow;
use std::alloc::Global;
use suite_base::NoMemory;

/// A list of coefficients. An implementation chooses how it keeps them; contracts see the list.
pub trait Row: Sized + Drop {
    ghost use Rattle.std.specs.Prelude.{◌≡◌, ◌<◌, ◌≤◌, ◌+◌, ◌-◌, ◌^◌, ℕ, ℤ, pos, List, [], ◌∷◌, ◌++◌, replicate, ◌+ℤ◌, ◌*ℤ◌, length, IfOk, IfErr, OnOk};
    ghost use Rattle.row_core.specs.Rows.{entry, dot, combined, combined_weight, IsHeavy, AreCoefficients};

    ghost coefficients: { Self → List ℤ };

    /// The row of these coefficients.
    fn from_coeffs(alloc: Global, coeffs: &[Coeff]) -> Result<Self, NoMemory>
        ensures { IfOk result (λ row. coefficients row ≡ coeffs.now) };

    /// The number of entries.
    fn len(&self) -> usize
        ensures answer { result ≡ length (coefficients self.now) }
        ensures range { AreCoefficients (coefficients self.now) };

    /// Entry `k`, from 0, which is below the length.
    fn get(&self, k: usize) -> Coeff
        requires { k < length (coefficients self.now) }
        ensures { result ≡ entry (coefficients self.now) k };

    /// The empty row, with room for `count` entries that are not 0.
    fn with_capacity(alloc: Global, count: usize) -> Result<Self, NoMemory>
        ensures { IfOk result (λ row. coefficients row ≡ []) };

    /// Appends an entry.
    fn push(&mut self, value: Coeff) -> Result<(), NoMemory>
        requires { length (coefficients self.old) < 2 ^ 64 - 1 }
        ensures { OnOk result (coefficients self.new ≡ coefficients self.old ++ value ∷ []) };

    /// Appends `count` zeros.
    fn push_zeros(&mut self, count: usize) -> Result<(), NoMemory>
        requires { length (coefficients self.old) + count < 2 ^ 64 }
        ensures { OnOk result (coefficients self.new ≡ coefficients self.old ++ replicate count (pos 0)) };

    /// The first place from `start` on whose entry is not 0; `end` where there is none before it.
    fn next_place(&self, start: usize, end: usize) -> usize
        requires range { start ≤ end }
        requires within { end ≤ length (coefficients self.now) }
        ensures from { start ≤ result }
        ensures to { result ≤ end }
        ensures zeros { (k : ℕ) → start ≤ k → k < result → entry (coefficients self.now) k ≡ pos 0 }
        ensures found { result < end → ¬ (entry (coefficients self.now) result ≡ pos 0) };

    /// The row `p a + q b`, column by column; `a` and `b` have equal lengths. Overflow comes exactly
    /// where the absolute values of the two products sum above 2^127 - 1 in some column.
    fn combine(alloc: Global, p: Coeff, a: &Self, q: Coeff, b: &Self) -> Result<Self, RowFail>
        requires { length (coefficients a.now) ≡ length (coefficients b.now) }
        ensures ok { IfOk result (λ row. coefficients row ≡ combined p (coefficients a.now) q (coefficients b.now)) }
        ensures fits { OnOk result (¬ IsHeavy p (coefficients a.now) q (coefficients b.now)) }
        ensures overflow { IfErr result (λ fail. fail ≡ RowFail.Overflow → IsHeavy p (coefficients a.now) q (coefficients b.now)) }
        ensures light { OnOk result (combined_weight p (coefficients a.now) q (coefficients b.now) < 2 ^ 127) }
        ensures heavy { IfErr result (λ fail. fail ≡ RowFail.Overflow → 2 ^ 127 ≤ combined_weight p (coefficients a.now) q (coefficients b.now)) };

    /// A copy of the row.
    fn copy(&self, alloc: Global) -> Result<Self, NoMemory>
        ensures { IfOk result (λ row. coefficients row ≡ coefficients self.now) };

    /// The value of a combination at every point is `p` times the value of `a` and `q` times the
    /// value of `b`.
    ghost linear: { (p : ℤ) (a : Self) (q : ℤ) (b row : Self) → length (coefficients a) ≡ length (coefficients b)
        → coefficients row ≡ combined p (coefficients a) q (coefficients b)
        → (point : List ℤ) → dot (coefficients row) point ≡ (p *ℤ dot (coefficients a) point) +ℤ (q *ℤ dot (coefficients b) point) };
}

impl Row for DenseRow {
    ghost use Rattle.row_core.specs.Linear.{dot_combination};

    ghost coefficients = { λ row. row };

    fn from_coeffs(alloc: Global, coeffs: &[Coeff]) -> Result<DenseRow, NoMemory> {
        DenseRow::from_coeffs(alloc, coeffs)
    }

    fn with_capacity(alloc: Global, count: usize) -> Result<DenseRow, NoMemory> {
        DenseRow::with_capacity(alloc, count)
    }

    fn push(&mut self, value: Coeff) -> Result<(), NoMemory> {
        DenseRow::push(self, value)
    }

    fn push_zeros(&mut self, count: usize) -> Result<(), NoMemory> {
        DenseRow::push_zeros(self, count)
    }

    fn next_place(&self, start: usize, end: usize) -> usize {
        DenseRow::next_place(self, start, end)
    }

    fn len(&self) -> usize {
        DenseRow::len(self)
    }

    fn get(&self, k: usize) -> Coeff {
        DenseRow::get(self, k)
    }

    fn combine(
        alloc: Global,
        p: Coeff,
        a: &DenseRow,
        q: Coeff,
        b: &DenseRow,
    ) -> Result<DenseRow, RowFail> {
        combine(alloc, p, a, q, b)
    }

    fn copy(&self, alloc: Global) -> Result<DenseRow, NoMemory> {
        DenseRow::copy(self, alloc)
    }

    ghost linear = { λ p a q b row. dot_combination p a q b row };
}

impl Row for SparseRow {
    ghost use Rattle.row_core.specs.Linear.{dot_combination};

    ghost coefficients = { λ row. row };

    fn from_coeffs(alloc: Global, coeffs: &[Coeff]) -> Result<SparseRow, NoMemory> {
        SparseRow::from_coeffs(alloc, coeffs)
    }

    fn with_capacity(alloc: Global, count: usize) -> Result<SparseRow, NoMemory> {
        SparseRow::with_capacity(alloc, count)
    }

    fn push(&mut self, value: Coeff) -> Result<(), NoMemory> {
        SparseRow::push(self, value)
    }

    fn push_zeros(&mut self, count: usize) -> Result<(), NoMemory> {
        SparseRow::push_zeros(self, count);
        Ok(())
    }

    fn next_place(&self, start: usize, end: usize) -> usize {
        SparseRow::next_place(self, start, end)
    }

    fn len(&self) -> usize {
        SparseRow::len(self)
    }

    fn get(&self, k: usize) -> Coeff {
        SparseRow::get(self, k)
    }

    fn combine(
        alloc: Global,
        p: Coeff,
        a: &SparseRow,
        q: Coeff,
        b: &SparseRow,
    ) -> Result<SparseRow, RowFail> {
        combine_sparse(alloc, p, a, q, b)
    }

    fn copy(&self, alloc: Global) -> Result<SparseRow, NoMemory> {
        SparseRow::copy(self, alloc)
    }

    ghost linear = { λ p a q b row. dot_combination p a q b row };
}
