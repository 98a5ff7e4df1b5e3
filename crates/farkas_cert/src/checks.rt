//! The check of a certificate, and what a valid one means.
//!
//! Where every row of a system holds at a point, so does the sum of nonnegative multiples of the
//! inequalities and any multiples of the equalities. If no variable is left in that sum and its
//! constant is negative, then it holds nowhere, so no point exists (Farkas' lemma, the easy half).

ghost use Rattle.std.specs.Prelude.{◌≡◌, ◌<◌, ◌≤◌, ◌+◌, ◌^◌, ◌↔◌, pos, ◌<ℤ◌, length, IsTrue, IfOk, MatchOption, MatchResult};
ghost use Rattle.relation_core.specs.Systems.{columns, width};
ghost use Rattle.relation_core.specs.Points.{column, column_weight};
ghost use Rattle.farkas_cert.specs.Certificates.{AllowedOne, Allowed, Cleared, Valid, ValidMeansEmpty, HasNoPoint, HasHeavyColumn, IsTooHeavy, IsLight, BeginsAt};

use crate::certificates::Certificate;
use crate::products::with_product;
use relation_core::{Part, RowKind};
use row_core::{Coeff, Sum};

/// The answer of a check whose sums might leave the range of coefficients.
#[derive(Clone, Copy, Debug, PartialEq, Eq)]
pub struct TooHeavy;

/// Whether `certificate` has one multiplier for each row of `system`, none negative for an
/// inequality, and the combination of the rows has no variable and a negative constant. A system
/// with such a certificate has no rational point. `TooHeavy` comes exactly where the lengths agree
/// and in some column, the constant's too, the absolute products sum above 2^127 - 1.
pub fn check(system: &Part, certificate: &Certificate) -> Result<bool, TooHeavy>
    ensures answer { MatchResult result
        (λ valid. IsTrue valid ↔ Valid (columns system.now.shape) system.now.rows certificate.now)
        (λ _. IsTooHeavy (columns system.now.shape) system.now.rows certificate.now) }
    ensures light { IfOk result (λ _. ¬ IsTooHeavy (columns system.now.shape) system.now.rows certificate.now) }
    ensures meaning { IfOk result (λ valid. IsTrue valid → HasNoPoint (columns system.now.shape) system.now.rows) }
{
    let multipliers = certificate.as_slice();
    if multipliers.len() != system.row_count() {
        return Ok(false);
    }
    is_valid(system, multipliers)
}

/// A system with a valid certificate has no rational point, whatever the integers and their factor.
pub fn valid_means_empty()
    ensures { ValidMeansEmpty }
{}

// The check of as many multipliers as there are rows.
fn is_valid(system: &Part, multipliers: &[Coeff]) -> Result<bool, TooHeavy>
    requires { length multipliers.now ≡ length system.now.rows }
    ensures answer { MatchResult result
        (λ valid. IsTrue valid ↔ Valid (columns system.now.shape) system.now.rows multipliers.now)
        (λ _. IsTooHeavy (columns system.now.shape) system.now.rows multipliers.now) }
    ensures light { IfOk result (λ _. ¬ IsTooHeavy (columns system.now.shape) system.now.rows multipliers.now) }
{
    let first = first_factor(multipliers);
    match contradicts(system, multipliers, first) {
        None => Err(TooHeavy),
        Some(contradiction) => Ok(contradiction & is_allowed(system, multipliers)),
    }
}

// The place of the first multiplier that is not 0; the number of multipliers where there is none.
fn first_factor(multipliers: &[Coeff]) -> usize
    ensures { BeginsAt multipliers.now result }
{
    for i in 0..multipliers.len() {
        if !multipliers[i].is_zero() {
            return i;
        }
    }
    multipliers.len()
}

// Whether the combination has no variable and a negative constant; `None` where it is too heavy. The
// multipliers before place `first` are 0.
fn contradicts(system: &Part, multipliers: &[Coeff], first: usize) -> Option<bool>
    requires lengths { length multipliers.now ≡ length system.now.rows }
    requires begins { BeginsAt multipliers.now first }
    ensures { MatchOption result (HasHeavyColumn (width system.now.shape) system.now.rows multipliers.now)
        (λ yes. (IsTrue yes ↔ (Cleared (columns system.now.shape) system.now.rows multipliers.now × (column multipliers.now system.now.rows (columns system.now.shape) <ℤ pos 0))) × IsLight (width system.now.shape) system.now.rows multipliers.now) }
{
    let constant = system.width() - 1;
    let cleared = clears(system, multipliers, first, constant)?;
    let sum = column_sum(system, multipliers, first, constant)?;
    Some(cleared & (sum.value().value() < 0))
}

// Whether the first `count` columns of the combination are 0; `None` where one is too heavy.
fn clears(system: &Part, multipliers: &[Coeff], first: usize, count: usize) -> Option<bool>
    requires lengths { length multipliers.now ≡ length system.now.rows }
    requires begins { BeginsAt multipliers.now first }
    requires columns { count < width system.now.shape }
    ensures { MatchOption result (HasHeavyColumn count system.now.rows multipliers.now)
        (λ yes. (IsTrue yes ↔ Cleared count system.now.rows multipliers.now) × IsLight count system.now.rows multipliers.now) }
{
    let mut cleared = true;
    for k in 0..count {
        let sum = column_sum(system, multipliers, first, k)?;
        cleared = cleared & (sum.value().value() == 0);
    }
    Some(cleared)
}

// Column `k` of the combination; `None` exactly where it is too heavy.
fn column_sum(system: &Part, multipliers: &[Coeff], first: usize, k: usize) -> Option<Sum>
    requires lengths { length multipliers.now ≡ length system.now.rows }
    requires begins { BeginsAt multipliers.now first }
    requires column { k < width system.now.shape }
    ensures { MatchOption result (2 ^ 127 ≤ column_weight multipliers.now system.now.rows k)
        (λ sum. (sum.value ≡ column multipliers.now system.now.rows k) × (column_weight multipliers.now system.now.rows k < 2 ^ 127)) }
{
    let mut sum = Sum::zero();
    for i in first..multipliers.len() {
        sum = with_product(sum, multipliers[i], system.entry(i, k))?;
    }
    Some(sum)
}

// Whether no multiplier of an inequality is negative.
fn is_allowed(system: &Part, multipliers: &[Coeff]) -> bool
    requires { length multipliers.now ≡ length system.now.rows }
    ensures { IsTrue result ↔ Allowed system.now.rows multipliers.now }
{
    for i in 0..multipliers.len() {
        if !may_multiply(system.kind(i), multipliers[i]) {
            return false;
        }
    }
    true
}

// Whether a row of this kind may be multiplied by `multiplier`.
fn may_multiply(kind: RowKind, multiplier: Coeff) -> bool
    ensures { IsTrue result ↔ AllowedOne kind multiplier }
{
    match kind {
        RowKind::Equal => true,
        RowKind::AtLeast => multiplier.value() >= 0,
    }
}
