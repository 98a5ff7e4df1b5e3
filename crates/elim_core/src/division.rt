//! A row divided by the greatest common divisor of its entries.

ghost use Rattle.std.specs.Prelude.{◌≡◌, ◌<◌, ◌≤◌, ◌-◌, ◌^◌, ◌++◌, ℕ, [], map, length, drop, replicate, int_div, pos, unsigned_abs, IfOk};
ghost use Rattle.row_core.specs.Rows.{entry};
ghost use Rattle.elim_core.specs.Gcd.{gcd, gcd_onto, divided_by, divided};

use crate::counts::entry_count;
use row_core::{Coeff, Row};
use std::alloc::Global;
use suite_base::NoMemory;

/// `row` divided by the greatest common divisor of its entries; a row of zeros stays.
pub fn divided<R: Row>(alloc: Global, row: R) -> Result<R, NoMemory>
    ensures { IfOk result (λ made. R.coefficients made ≡ divided (R.coefficients row)) }
{
    let divisor = row_gcd(&row);
    if divisor < 2 {
        return Ok(row);
    }
    quotients(alloc, &row, divisor)
}

// The greatest common divisor of all entries. No entry changes a divisor of 1, and a 0 changes none.
fn row_gcd<R: Row>(row: &R) -> u128
    ensures value { result ≡ gcd_onto 0 (R.coefficients row.now) }
    ensures range { result < 2 ^ 127 }
{
    let mut divisor = 0;
    let mut k = row.next_place(0, row.len());
    while k < row.len() {
        if divisor == 1 {
            return 1;
        }
        divisor = gcd(divisor, magnitude(row.get(k)));
        k = row.next_place(k + 1, row.len());
    }
    divisor
}

// The absolute value of a coefficient.
fn magnitude(c: Coeff) -> u128
    ensures value { result ≡ unsigned_abs c }
    ensures range { result < 2 ^ 127 }
{
    c.value().unsigned_abs()
}

// The greatest common divisor, by Euclid's algorithm.
fn gcd(first: u128, second: u128) -> u128
    requires first { first < 2 ^ 127 }
    requires second { second < 2 ^ 127 }
    ensures value { result ≡ gcd first second }
    ensures range { result < 2 ^ 127 }
{
    let mut a = first;
    let mut b = second;
    while b != 0 {
        let rest = a % b;
        a = b;
        b = rest;
    }
    a
}

// The entries divided by `divisor`.
fn quotients<R: Row>(alloc: Global, row: &R, divisor: u128) -> Result<R, NoMemory>
    requires positive { 0 < divisor }
    requires range { divisor < 2 ^ 127 }
    ensures { IfOk result (λ made. R.coefficients made ≡ divided_by divisor (R.coefficients row.now)) }
{
    let mut made = R::with_capacity(alloc, entry_count(row))?;
    let mut k = pass_zeros(&mut made, row)?;
    while k < row.len() {
        made.push(quotient(row.get(k), divisor))?;
        k = pass_zeros(&mut made, row)?;
    }
    Ok(made)
}

// Appends zeros up to the next entry of `row` that isn't 0, and answers how long `made` is then.
fn pass_zeros<R: Row>(made: &mut R, row: &R) -> Result<usize, NoMemory>
    requires { length (R.coefficients made.old) ≤ length (R.coefficients row.now) }
    ensures row { IfOk result (λ end. R.coefficients made.new
        ≡ R.coefficients made.old ++ replicate (end - length (R.coefficients made.old)) (pos 0)) }
    ensures rest { IfOk result (λ end. drop (length (R.coefficients made.old)) (R.coefficients row.now)
        ≡ replicate (end - length (R.coefficients made.old)) (pos 0) ++ drop end (R.coefficients row.now)) }
    ensures from { IfOk result (λ end. length (R.coefficients made.old) ≤ end) }
    ensures to { IfOk result (λ end. end ≤ length (R.coefficients row.now)) }
{
    let start = made.len();
    let end = row.next_place(start, row.len());
    made.push_zeros(end - start)?;
    Ok(end)
}

// A coefficient divided by `divisor`.
fn quotient(c: Coeff, divisor: u128) -> Coeff
    requires positive { 0 < divisor }
    requires range { divisor < 2 ^ 127 }
    ensures { result ≡ int_div c (pos divisor) }
{
    Coeff::bounded(c.value() / divisor as i128)
}
