//! Keys of rows: rows with different keys have different coefficients.

ghost use Rattle.std.specs.Prelude.{◌≡◌, ◌<◌, ◌≤◌, ◌^◌, length};
ghost use Rattle.elim_core.specs.Keys.{mixed, key};

use crate::signs::is_negative;
use crate::working_rows::WorkingRow;
use row_core::{Coeff, Row};

/// The key of the coefficients of `n` variables.
pub fn key<R: Row>(n: usize, w: &WorkingRow<R>) -> u128
    requires { n ≤ length w.now.entries }
    ensures { result ≡ key n w.now }
{
    let mut key = 0;
    let mut k = w.next_place(0, n);
    while k < n {
        key = mixed(key, k, w.entry(k));
        k = w.next_place(k + 1, n);
    }
    key
}

// A key and one entry more, at place `k`.
fn mixed(key: u128, k: usize, c: Coeff) -> u128
    requires { key < 2 ^ 64 }
    ensures value { result ≡ mixed key k c }
    ensures range { result < 2 ^ 64 }
{
    let factor = if is_negative(c) { 37 } else { 31 };
    let placed = key * 41 + k as u128;
    (placed * factor + c.value().unsigned_abs() % (1 << 64)) % (1 << 64)
}
