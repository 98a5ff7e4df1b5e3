//! A row of coefficients that keeps every entry, in the value itself where it is short.

ghost use Rattle.std.specs.Prelude.{◌≡◌, ◌<◌, ◌≤◌, [], ◌∷◌, ◌++◌, ℕ, pos, replicate, length, insert, swap, IfOk, OnOk, OnErr};
ghost use Rattle.row_core.specs.Rows.{entry, AreCoefficients};

use crate::coeffs::Coeff;
use smallvec::SmallVec;
use std::alloc::Global;
use std::marker::Model;
use suite_base::NoMemory;

/// A list of coefficients. Up to eight of them need no allocation.
#[derive(Drop)]
pub struct DenseRow {
    coeffs: SmallVec<Coeff, 8>,
}

impl Model for DenseRow {
    ghost use Rattle.std.specs.Prelude.{List, ℤ};
    ghost use Rattle.row_core.specs.Rows.{AreCoefficients};

    ghost Value = { List ℤ };

    ghost view = { λ row. row.coeffs.items };

    ghost invariant = { λ row. AreCoefficients row.coeffs.items };
}

impl DenseRow {
    /// The empty row.
    pub fn new(alloc: Global) -> DenseRow
        ensures { result ≡ [] }
    {
        DenseRow {
            coeffs: SmallVec::new(alloc),
        }
    }

    /// The empty row, with room for `capacity` entries.
    pub fn with_capacity(alloc: Global, capacity: usize) -> Result<DenseRow, NoMemory>
        ensures { IfOk result (λ row. row ≡ []) }
    {
        Ok(DenseRow {
            coeffs: SmallVec::with_capacity(alloc, capacity)?,
        })
    }

    /// The row of these coefficients.
    pub fn from_coeffs(alloc: Global, coeffs: &[Coeff]) -> Result<DenseRow, NoMemory>
        ensures { IfOk result (λ row. row ≡ coeffs.now) }
    {
        let mut row = DenseRow::with_capacity(alloc, coeffs.len())?;
        row.push_all(coeffs)?;
        Ok(row)
    }

    /// The allocator that the row keeps.
    pub fn allocator(&self) -> Global {
        *self.coeffs.allocator()
    }

    /// The number of entries.
    pub fn len(&self) -> usize
        ensures answer { result ≡ length self.now }
        ensures range { AreCoefficients self.now }
    {
        self.coeffs.len()
    }

    /// Entry `k`, from 0, which is below the length.
    pub fn get(&self, k: usize) -> Coeff
        requires { k < length self.now }
        ensures { result ≡ entry self.now k }
    {
        self.coeffs.as_slice()[k]
    }

    /// The entries as a slice.
    pub fn as_slice(&self) -> &[Coeff]
        ensures { result.now ≡ self.now }
    {
        self.coeffs.as_slice()
    }

    /// Appends an entry. On want of memory the row is as before.
    pub fn push(&mut self, entry: Coeff) -> Result<(), NoMemory>
        ensures ok { OnOk result (self.new ≡ self.old ++ entry ∷ []) }
        ensures err { OnErr result (self.new ≡ self.old) }
    {
        let _in_range = entry.value();
        self.coeffs.push(entry)?;
        Ok(())
    }

    /// Puts `entry` before place `k`, which is at most the length. On want of memory the row is as
    /// before.
    pub fn insert(&mut self, k: usize, entry: Coeff) -> Result<(), NoMemory>
        requires { k ≤ length self.old }
        ensures ok { OnOk result (self.new ≡ insert self.old k entry) }
        ensures err { OnErr result (self.new ≡ self.old) }
    {
        let _in_range = entry.value();
        self.coeffs.insert(k, entry)?;
        Ok(())
    }

    /// Appends `count` zeros.
    pub fn push_zeros(&mut self, count: usize) -> Result<(), NoMemory>
        ensures { OnOk result (self.new ≡ self.old ++ replicate count (pos 0)) }
    {
        for _ in 0..count {
            self.push(Coeff::ZERO)?;
        }
        Ok(())
    }

    /// Appends all of `coeffs`.
    pub fn push_all(&mut self, coeffs: &[Coeff]) -> Result<(), NoMemory>
        ensures { OnOk result (self.new ≡ self.old ++ coeffs.now) }
    {
        see_ranges(coeffs);
        self.coeffs.extend_from_slice(coeffs)?;
        Ok(())
    }

    /// The first place from `start` on whose entry is not 0; `end` where there is none before it.
    pub fn next_place(&self, start: usize, end: usize) -> usize
        requires range { start ≤ end }
        requires within { end ≤ length self.now }
        ensures from { start ≤ result }
        ensures to { result ≤ end }
        ensures zeros { (k : ℕ) → start ≤ k → k < result → entry self.now k ≡ pos 0 }
        ensures found { result < end → ¬ (entry self.now result ≡ pos 0) }
    {
        for k in start..end {
            if !self.get(k).is_zero() {
                return k;
            }
        }
        end
    }

    /// A copy of the row.
    pub fn copy(&self, alloc: Global) -> Result<DenseRow, NoMemory>
        ensures { IfOk result (λ row. row ≡ self.now) }
    {
        Ok(DenseRow {
            coeffs: SmallVec::from_slice(alloc, self.coeffs.as_slice())?,
        })
    }

    /// Lets the entries at `i` and `j`, both below the length, change places.
    pub fn swap(&mut self, i: usize, j: usize)
        requires first { i < length self.old }
        requires second { j < length self.old }
        ensures { self.new ≡ swap self.old i j }
    {
        self.coeffs.as_mut_slice().swap(i, j);
    }
}

// Tells the range of each of `coeffs`; it compiles to nothing.
fn see_ranges(coeffs: &[Coeff])
    ensures { AreCoefficients coeffs.now }
{
    for coeff in coeffs {
        let _in_range = coeff.value();
    }
}
