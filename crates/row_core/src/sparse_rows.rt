//! A row of coefficients that keeps only the entries that are not 0.

ghost use Rattle.std.specs.Prelude.{◌≡◌, ◌<◌, ◌≤◌, ◌+◌, ◌-◌, ◌^◌, ℕ, [], ◌∷◌, ◌++◌, pos, length, replicate, IfOk, OnOk, OnErr};
ghost use Rattle.row_core.specs.Rows.{entry, AreCoefficients};
ghost use Rattle.row_core.specs.Sparse.{nonzeros};

use crate::coeffs::Coeff;
use crate::entries::Entry;
use crate::sparse_entries::{place_from, value_among};
use std::alloc::Global;
use std::marker::Model;
use suite_base::NoMemory;

/// A list of coefficients, kept as its length and its entries that are not 0, in rising order of
/// their places.
#[derive(Drop)]
pub struct SparseRow {
    len: usize,
    entries: Vec<Entry>,
}

impl Model for SparseRow {
    ghost use Rattle.std.specs.Prelude.{List, ℤ};
    ghost use Rattle.row_core.specs.Sparse.{spread, IsSparse};

    ghost Value = { List ℤ };

    ghost view = { λ row. spread 0 row.len row.entries.items };

    ghost invariant = { λ row. IsSparse row.len row.entries.items };
}

impl SparseRow {
    /// The empty row.
    pub fn new(alloc: Global) -> SparseRow
        ensures { result ≡ [] }
    {
        SparseRow {
            len: 0,
            entries: Vec::new(alloc),
        }
    }

    /// The empty row, with room for `count` entries that are not 0.
    pub fn with_capacity(alloc: Global, count: usize) -> Result<SparseRow, NoMemory>
        ensures { IfOk result (λ row. row ≡ []) }
    {
        let entries = Vec::with_capacity(alloc, count)?;
        Ok(SparseRow { len: 0, entries })
    }

    /// The row of these coefficients.
    pub fn from_coeffs(alloc: Global, coeffs: &[Coeff]) -> Result<SparseRow, NoMemory>
        ensures { IfOk result (λ row. row ≡ coeffs.now) }
    {
        let mut row = SparseRow::new(alloc);
        for k in 0..coeffs.len() {
            row.push(coeffs[k])?;
        }
        Ok(row)
    }

    /// The number of entries, zeros among them.
    pub fn len(&self) -> usize
        ensures answer { result ≡ length self.now }
        ensures range { AreCoefficients self.now }
    {
        self.len
    }

    /// Entry `k`, from 0, which is below the length.
    pub fn get(&self, k: usize) -> Coeff
        requires { k < length self.now }
        ensures { result ≡ entry self.now k }
    {
        value_among(self.entries(), k)
    }

    /// The first place from `start` on whose entry is not 0; `end` where there is none before it.
    pub fn next_place(&self, start: usize, end: usize) -> usize
        requires range { start ≤ end }
        requires within { end ≤ length self.now }
        ensures from { start ≤ result }
        ensures to { result ≤ end }
        ensures zeros { (k : ℕ) → start ≤ k → k < result → entry self.now k ≡ pos 0 }
        ensures found { result < end → ¬ (entry self.now result ≡ pos 0) }
    {
        place_from(self.entries(), start, end)
    }

    /// The entries that are not 0, each with its place, in rising order of the places.
    pub fn entries(&self) -> &[Entry]
        ensures { result.now ≡ nonzeros 0 self.now }
    {
        self.entries.as_slice()
    }

    /// Appends an entry to a row that is shorter than the greatest `usize`. On want of memory the row
    /// is as before.
    pub fn push(&mut self, value: Coeff) -> Result<(), NoMemory>
        requires { length self.old < 2 ^ 64 - 1 }
        ensures ok { OnOk result (self.new ≡ self.old ++ value ∷ []) }
        ensures err { OnErr result (self.new ≡ self.old) }
    {
        if value.is_zero() {
            self.len += 1;
            return Ok(());
        }
        self.entries.push(Entry {
            place: self.len,
            value,
        })?;
        self.len += 1;
        Ok(())
    }

    /// Appends `count` zeros; the row stays no longer than the greatest `usize`.
    pub fn push_zeros(&mut self, count: usize)
        requires { length self.old + count < 2 ^ 64 }
        ensures { self.new ≡ self.old ++ replicate count (pos 0) }
    {
        self.len += count;
    }

    /// A copy of the row.
    pub fn copy(&self, alloc: Global) -> Result<SparseRow, NoMemory>
        ensures { IfOk result (λ row. row ≡ self.now) }
    {
        Ok(SparseRow {
            len: self.len,
            entries: Vec::from_slice(alloc, self.entries.as_slice())?,
        })
    }
}
