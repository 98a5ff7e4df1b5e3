//! The search, and what it finds.

ghost use Rattle.std.specs.Prelude.{◌≡◌, ◌<◌, length};

use crate::divisors::gcd_wide;
use crate::pivots::{End, solve};
use crate::starts::start;
use crate::tableaux::{Tableau, Variable};
use farkas_cert::Certificate;
use relation_core::Part;
use row_core::Coeff;
use std::alloc::Global;
use suite_base::NoMemory;

/// What a search has found, to be checked.
#[derive(Drop)]
pub enum Candidate {
    /// A numerator for each column of the system, and last their common denominator.
    Point(Vec<Coeff>),
    /// A multiplier for each row of the system.
    Refutation(Certificate),
    /// Nothing: a number passes 64 bits, or the pivots are too many.
    Nothing,
}

/// Searches for a rational point of `system`, or for multipliers that refute every one. What it answers
/// is only a candidate.
pub fn search(alloc: Global, system: &Part) -> Result<Candidate, NoMemory> {
    let Some(mut tableau) = start(alloc, system)? else {
        return Ok(Candidate::Nothing);
    };
    search_over(alloc, &mut tableau, 0, system.row_count())
}

/// Pivots until the tableau shows a point or a contradiction of a system of `count` rows, and answers that.
/// The rows before row `first` are solved.
pub fn search_over(
    alloc: Global,
    tableau: &mut Tableau,
    first: usize,
    count: usize,
) -> Result<Candidate, NoMemory> {
    match solve(tableau, first) {
        None => Ok(Candidate::Nothing),
        Some(End::Solved) => point(alloc, tableau),
        Some(End::Contradiction(r)) => refutation(alloc, tableau, r, count),
    }
}

/// The values of the system's variables, where no inequality is negative.
pub fn point(alloc: Global, tableau: &Tableau) -> Result<Candidate, NoMemory> {
    let Some(common) = common_denominator(tableau) else {
        return Ok(Candidate::Nothing);
    };
    let Some(denominator) = Coeff::new(common) else {
        return Ok(Candidate::Nothing);
    };
    let n = tableau.column_count();
    let mut point = vec![in alloc; denominator; n.saturating_add(1)]?;
    fill_zeros(point.as_mut_slice(), n);
    if fill_point(point.as_mut_slice(), tableau, common).is_none() {
        return Ok(Candidate::Nothing);
    }
    Ok(Candidate::Point(point))
}

// Puts 0 at the first `n` places.
fn fill_zeros(point: &mut [Coeff], n: usize) {
    for k in 0..point.len().min(n) {
        point[k] = Coeff::ZERO;
    }
}

// A common multiple of the denominators of the system's variables.
fn common_denominator(tableau: &Tableau) -> Option<i128> {
    let mut common: u128 = 1;
    for i in 0..tableau.row_count() {
        if let Variable::Free(_) = tableau.row_variable(i) {
            common = common_multiple(common, tableau.denominator(i).unsigned_abs())?;
        }
    }
    if common < 1 << 127 {
        Some(common as i128)
    } else {
        None
    }
}

// The least common multiple.
fn common_multiple(common: u128, denominator: u64) -> Option<u128> {
    if denominator == 1 {
        return Some(common);
    }
    let wide = u128::from(denominator);
    common.checked_mul(wide.checked_div(gcd_wide(common, wide))?)
}

// Puts the numerators of the system's variables over `common` at their places.
fn fill_point(point: &mut [Coeff], tableau: &Tableau, common: i128) -> Option<()> {
    for i in 0..tableau.row_count() {
        if let Variable::Free(k) = tableau.row_variable(i) {
            let value = numerator(tableau.constant(i), tableau.denominator(i), common)?;
            if k < point.len() {
                point[k] = value;
            }
        }
    }
    Some(())
}

// The numerator over `common` of a constant over a denominator.
fn numerator(constant: i64, denominator: i64, common: i128) -> Option<Coeff> {
    if common == 1 {
        return Some(coefficient(constant));
    }
    let factor = common.checked_div(i128::from(denominator))?;
    Coeff::new(factor.checked_mul(i128::from(constant))?)
}

/// The multipliers that row `r`, which cannot hold, has for the `count` rows of a system.
pub fn refutation(
    alloc: Global,
    tableau: &Tableau,
    r: usize,
    count: usize,
) -> Result<Candidate, NoMemory>
    requires { r < tableau.now.rows }
{
    let columns = tableau.column_variables();
    refute(
        alloc,
        tableau.row_variable(r),
        columns,
        tableau.row(r),
        count,
    )
}

/// The same of a row of this variable and these cells, which cannot hold.
pub fn refute(
    alloc: Global,
    variable: Variable,
    columns: &[Variable],
    cells: &[i64],
    count: usize,
) -> Result<Candidate, NoMemory> {
    let mut certificate = Certificate::zeros(alloc, count)?;
    fill_multipliers(&mut certificate, variable, columns, cells);
    Ok(Candidate::Refutation(certificate))
}

// Puts the multipliers of a row at their places. An equality with a positive constant is turned.
fn fill_multipliers(
    certificate: &mut Certificate,
    variable: Variable,
    columns: &[Variable],
    cells: &[i64],
) {
    let [factors @ .., constant, denominator] = cells else {
        return;
    };
    let is_turned = *constant > 0;
    put(certificate, variable, *denominator, is_turned);
    for j in 0..factors.len().min(columns.len()) {
        put(certificate, columns[j], factors[j], !is_turned);
    }
}

// Puts a multiplier, or its negative, at the place of the variable's row, where 0 stands.
fn put(certificate: &mut Certificate, variable: Variable, value: i64, is_turned: bool) {
    if value == 0 {
        return;
    }
    let multiplier = coefficient(value);
    let signed = if is_turned {
        multiplier.negated()
    } else {
        multiplier
    };
    match variable {
        Variable::Free(_) => {}
        Variable::Zero(k) => set_at(certificate, k, signed),
        Variable::AtLeastZero(k) => set_at(certificate, k, signed),
    }
}

// A cell as a coefficient.
fn coefficient(value: i64) -> Coeff {
    Coeff::bounded(i128::from(value))
}

// Puts a multiplier at place `k`, where there is one.
fn set_at(certificate: &mut Certificate, k: usize, multiplier: Coeff) {
    if k < certificate.len() {
        certificate.set(k, multiplier);
    }
}
