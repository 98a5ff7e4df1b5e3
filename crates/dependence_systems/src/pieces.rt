//! Rows made from pieces: zeros, coefficients, and sums of the coefficients of two values.

ghost use Rattle.std.specs.Prelude.{◌≡◌, ◌≤◌, ◌<◌, ◌+◌, ◌^◌, ◌*ℤ◌, ◌+ℤ◌, [], ◌∷◌, ◌++◌, length, not, unsigned_abs, OnOk, IfErr, MatchOption};
ghost use Rattle.row_core.specs.Rows.{scale, combined, combined_weight, pair_weight};
ghost use Rattle.dependence_systems.specs.Comparisons.{factor_of, one_of};

use row_core::{Coeff, DenseRow, RowFail, Sum};
use suite_base::NoMemory;

/// The coefficient, or its negative.
fn signed(negative: bool, coeff: Coeff) -> Coeff
    ensures { result ≡ factor_of negative *ℤ coeff }
{
    if negative { coeff.negated() } else { coeff }
}

/// Appends all of `coeffs`, or all of their negatives.
pub fn push_signed(row: &mut DenseRow, negative: bool, coeffs: &[Coeff]) -> Result<(), NoMemory>
    ensures { OnOk result (row.new ≡ row.old ++ scale (factor_of negative) coeffs.now) }
{
    for coeff in coeffs {
        row.push(signed(negative, *coeff))?;
    }
    Ok(())
}

/// The factor of one side: 1, or -1.
fn factor(negative: bool) -> Coeff
    ensures { result ≡ factor_of negative }
{
    if negative {
        Coeff::ONE.negated()
    } else {
        Coeff::ONE
    }
}

/// The difference of `a` and `b`, or that of `b` and `a` where it is `strict`; `None` exactly where
/// their absolute values sum above 2^127 - 1.
fn difference(strict: bool, a: Coeff, b: Coeff) -> Option<Coeff>
    ensures { MatchOption result (2 ^ 127 ≤ pair_weight (factor_of strict) a (factor_of (not strict)) b)
        (λ sum. (sum ≡ (factor_of strict *ℤ a) +ℤ (factor_of (not strict) *ℤ b)) × (pair_weight (factor_of strict) a (factor_of (not strict)) b < 2 ^ 127)) }
{
    let first = Sum::zero().add(factor(strict), a)?;
    let both = first.add(factor(!strict), b)?;
    Some(both.value())
}

/// The difference of two constants, with 1 less where it is `strict`; `None` exactly where the
/// absolute values of all summands sum above 2^127 - 1.
fn constant_difference(strict: bool, a: Coeff, b: Coeff) -> Option<Coeff>
    ensures { MatchOption result (2 ^ 127 ≤ pair_weight (factor_of strict) a (factor_of (not strict)) b + unsigned_abs (one_of strict))
        (λ sum. (sum ≡ ((factor_of strict *ℤ a) +ℤ (factor_of (not strict) *ℤ b)) +ℤ one_of strict)
        × (pair_weight (factor_of strict) a (factor_of (not strict)) b + unsigned_abs (one_of strict) < 2 ^ 127)) }
{
    let first = Sum::zero().add(factor(strict), a)?;
    let both = first.add(factor(!strict), b)?;
    if strict {
        let all = both.add(factor(true), Coeff::ONE)?;
        Some(all.value())
    } else {
        Some(both.value())
    }
}

/// Appends the differences of the entries of `a` and `b`, which have equal lengths. Overflow comes
/// exactly where one of them has summands whose absolute values sum above 2^127 - 1.
pub fn push_differences(
    row: &mut DenseRow,
    strict: bool,
    a: &[Coeff],
    b: &[Coeff],
) -> Result<(), RowFail>
    requires { length a.now ≡ length b.now }
    ensures row { OnOk result (row.new ≡ row.old ++ combined (factor_of strict) a.now (factor_of (not strict)) b.now) }
    ensures light { OnOk result (combined_weight (factor_of strict) a.now (factor_of (not strict)) b.now < 2 ^ 127) }
    ensures heavy { IfErr result (λ fail. fail ≡ RowFail.Overflow → 2 ^ 127 ≤ combined_weight (factor_of strict) a.now (factor_of (not strict)) b.now) }
{
    for k in 0..a.len() {
        match difference(strict, a[k], b[k]) {
            None => return Err(RowFail::Overflow),
            Some(entry) => {
                if row.push(entry).is_err() {
                    return Err(RowFail::Memory);
                }
            }
        }
    }
    Ok(())
}

/// Appends the difference of two constants, with 1 less where it is `strict`. Overflow comes exactly
/// where the absolute values of all summands sum above 2^127 - 1.
pub fn push_constant_difference(
    row: &mut DenseRow,
    strict: bool,
    a: Coeff,
    b: Coeff,
) -> Result<(), RowFail>
    ensures row { OnOk result (row.new ≡ row.old ++ (((factor_of strict *ℤ a) +ℤ (factor_of (not strict) *ℤ b)) +ℤ one_of strict) ∷ []) }
    ensures light { OnOk result (pair_weight (factor_of strict) a (factor_of (not strict)) b + unsigned_abs (one_of strict) < 2 ^ 127) }
    ensures heavy { IfErr result (λ fail. fail ≡ RowFail.Overflow → 2 ^ 127 ≤ pair_weight (factor_of strict) a (factor_of (not strict)) b + unsigned_abs (one_of strict)) }
{
    match constant_difference(strict, a, b) {
        None => Err(RowFail::Overflow),
        Some(entry) => match row.push(entry) {
            Ok(()) => Ok(()),
            Err(NoMemory) => Err(RowFail::Memory),
        },
    }
}
