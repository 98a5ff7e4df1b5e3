//! Arithmetic of affine values: sums, negatives, and one more floor.

ghost use Rattle.std.specs.Prelude.{◌≡◌, ◌<◌, ◌≤◌, ◌^◌, pos, ◌+ℤ◌, ◌*ℤ◌, neg_ℤ, map, length, MatchOption, IfOk, IfErr, OnOk};
ghost use Rattle.row_core.specs.Rows.{add_rows, scale, combined_weight, pair_weight};
ghost use Rattle.scop_data.specs.SolvedRows.{zeros};
ghost use Rattle.scop_data.specs.AffineSums.{HaveOneSize, plus_multiple, moved, negative, widened, last_floor, sum_weight, move_weight};

use crate::affines::Affine;
use crate::copies::{copied_affine, copied_coeffs};
use row_core::{Coeff, RowFail, Sum};
use std::alloc::Global;
use suite_base::{List, NoMemory};

// The sum `a + q b`; `None` exactly where the absolute values of `a` and `q b` sum above 2^127 - 1.
fn sum_with(a: Coeff, q: Coeff, b: Coeff) -> Option<Coeff>
    ensures { MatchOption result (2 ^ 127 ≤ pair_weight (pos 1) a q b)
        (λ sum. (sum ≡ a +ℤ (q *ℤ b)) × (pair_weight (pos 1) a q b < 2 ^ 127)) }
{
    let first = Sum::zero().add(Coeff::ONE, a)?;
    let both = first.add(q, b)?;
    Some(both.value())
}

// The coefficients `a + q b`.
fn row_sum(alloc: Global, a: &[Coeff], q: Coeff, b: &[Coeff]) -> Result<List<Coeff>, RowFail>
    requires { length a.now ≡ length b.now }
    ensures ok { IfOk result (λ row. row ≡ add_rows a.now (scale q b.now)) }
    ensures light { OnOk result (combined_weight (pos 1) a.now q b.now < 2 ^ 127) }
    ensures heavy { IfErr result (λ fail. fail ≡ RowFail.Overflow → 2 ^ 127 ≤ combined_weight (pos 1) a.now q b.now) }
{
    let Ok(mut row) = List::with_capacity(alloc, a.len()) else {
        return Err(RowFail::Memory);
    };
    for k in 0..a.len() {
        let Some(sum) = sum_with(a[k], q, b[k]) else {
            return Err(RowFail::Overflow);
        };
        if row.push(sum).is_err() {
            return Err(RowFail::Memory);
        }
    }
    Ok(row)
}

// The coefficients `a + b`.
#[tactic(auto, using(crate::proofs::AffineSums::one_of_row))]
fn row_total(alloc: Global, a: &[Coeff], b: &[Coeff]) -> Result<List<Coeff>, RowFail>
    requires { length a.now ≡ length b.now }
    ensures ok { IfOk result (λ row. row ≡ add_rows a.now b.now) }
    ensures light { OnOk result (combined_weight (pos 1) a.now (pos 1) b.now < 2 ^ 127) }
    ensures heavy { IfErr result (λ fail. fail ≡ RowFail.Overflow → 2 ^ 127 ≤ combined_weight (pos 1) a.now (pos 1) b.now) }
{
    row_sum(alloc, a, Coeff::ONE, b)
}

// The sum `a + b`; `None` exactly where the absolute values sum above 2^127 - 1.
fn total(a: Coeff, b: Coeff) -> Option<Coeff>
    ensures { MatchOption result (2 ^ 127 ≤ pair_weight (pos 1) a (pos 1) b)
        (λ sum. (sum ≡ a +ℤ b) × (pair_weight (pos 1) a (pos 1) b < 2 ^ 127)) }
{
    sum_with(a, Coeff::ONE, b)
}

// A copy of coefficients, beside sums that may overflow.
fn copied_row(alloc: Global, row: &[Coeff]) -> Result<List<Coeff>, RowFail>
    ensures ok { IfOk result (λ made. made ≡ row.now) }
    ensures memory { IfErr result (λ fail. fail ≡ RowFail.Memory) }
{
    match copied_coeffs(alloc, row) {
        Ok(made) => Ok(made),
        Err(NoMemory) => Err(RowFail::Memory),
    }
}

// The negatives of coefficients.
fn negated(alloc: Global, row: &[Coeff]) -> Result<List<Coeff>, NoMemory>
    ensures { IfOk result (λ made. made ≡ map neg_ℤ row.now) }
{
    let mut made = List::with_capacity(alloc, row.len())?;
    for coeff in row {
        made.push(coeff.negated())?;
    }
    Ok(made)
}

// So many zeros.
fn zero_coeffs(alloc: Global, n: usize) -> Result<List<Coeff>, NoMemory>
    ensures { IfOk result (λ made. made ≡ zeros n) }
{
    let mut made = List::with_capacity(alloc, n)?;
    for _ in 0..n {
        made.push(Coeff::ZERO)?;
    }
    Ok(made)
}

impl Affine {
    /// An equal value.
    pub fn copy(&self, alloc: Global) -> Result<Affine, NoMemory>
        ensures { IfOk result (λ value. value ≡ self.now) }
    {
        copied_affine(alloc, self)
    }

    /// The value `self + q other`, of which both have as many coefficients of each sort. `Overflow`
    /// exactly where the absolute values of the two products sum above 2^127 - 1 in some column.
    pub fn plus_multiple(&self, alloc: Global, q: Coeff, other: &Affine) -> Result<Affine, RowFail>
        requires { HaveOneSize self.now other.now }
        ensures ok { IfOk result (λ sum. sum ≡ plus_multiple self.now q other.now) }
        ensures light { OnOk result (sum_weight self.now q other.now < 2 ^ 127) }
        ensures heavy { IfErr result (λ fail. fail ≡ RowFail.Overflow → 2 ^ 127 ≤ sum_weight self.now q other.now) }
    {
        let Some(constant) = sum_with(self.constant, q, other.constant) else {
            return Err(RowFail::Overflow);
        };
        Ok(Affine {
            iterators: row_sum(alloc, self.iterators(), q, other.iterators())?,
            floors: row_sum(alloc, self.floors(), q, other.floors())?,
            parameters: row_sum(alloc, self.parameters(), q, other.parameters())?,
            constant,
        })
    }

    /// The value with `parameters`, one for each parameter, and `constant` added. `Overflow` exactly
    /// where two absolute values sum above 2^127 - 1.
    pub fn moved(
        &self,
        alloc: Global,
        parameters: &[Coeff],
        constant: Coeff,
    ) -> Result<Affine, RowFail>
        requires { length self.now.parameters ≡ length parameters.now }
        ensures ok { IfOk result (λ sum. sum ≡ moved self.now parameters.now constant) }
        ensures light { OnOk result (move_weight self.now parameters.now constant < 2 ^ 127) }
        ensures heavy { IfErr result (λ fail. fail ≡ RowFail.Overflow → 2 ^ 127 ≤ move_weight self.now parameters.now constant) }
    {
        let Some(constant) = total(self.constant, constant) else {
            return Err(RowFail::Overflow);
        };
        Ok(Affine {
            iterators: copied_row(alloc, self.iterators())?,
            floors: copied_row(alloc, self.floors())?,
            parameters: row_total(alloc, self.parameters(), parameters)?,
            constant,
        })
    }

    /// The negative of the value.
    pub fn negative(&self, alloc: Global) -> Result<Affine, NoMemory>
        ensures { IfOk result (λ value. value ≡ negative self.now) }
    {
        Ok(Affine {
            iterators: negated(alloc, self.iterators())?,
            floors: negated(alloc, self.floors())?,
            parameters: negated(alloc, self.parameters())?,
            constant: self.constant.negated(),
        })
    }

    /// The same value beside one more floor, whose coefficient is 0.
    pub fn widened(&self, alloc: Global) -> Result<Affine, NoMemory>
        ensures { IfOk result (λ value. value ≡ widened self.now) }
    {
        let mut floors = copied_coeffs(alloc, self.floors())?;
        floors.push(Coeff::ZERO)?;
        Ok(Affine {
            iterators: copied_coeffs(alloc, self.iterators())?,
            floors,
            parameters: copied_coeffs(alloc, self.parameters())?,
            constant: self.constant,
        })
    }

    /// The value that is one more floor behind those that `self` has coefficients of.
    pub fn last_floor(&self, alloc: Global) -> Result<Affine, NoMemory>
        ensures { IfOk result (λ value. value ≡ last_floor self.now) }
    {
        let mut floors = zero_coeffs(alloc, self.floors.len())?;
        floors.push(Coeff::ONE)?;
        Ok(Affine {
            iterators: zero_coeffs(alloc, self.iterators.len())?,
            floors,
            parameters: zero_coeffs(alloc, self.parameters.len())?,
            constant: Coeff::ZERO,
        })
    }
}
