//! Rows of coefficients: where they end, and where they are 0.

ghost use Rattle.std.specs.Prelude.{◌≡◌, map, IfOk};
ghost use Rattle.chlore_recover.specs.Recoverable.{rows_of};
ghost use Rattle.chlore_recover.specs.Refusals as refusal;
ghost use Rattle.chlore_recover.specs.Triangles as triangle;

use row_core::Coeff;
use scop_core::Affine;
use std::alloc::Global;
use suite_base::{List, NoMemory};

/// Whether each entry is 0.
pub fn is_zero(row: &[Coeff]) -> bool
    ensures { result ≡ triangle.is_zero row.now }
{
    for value in row {
        if value.value() != 0 {
            return false;
        }
    }
    true
}

/// Whether a number is 1 or -1.
pub fn is_sign(value: Coeff) -> bool
    ensures { result ≡ triangle.is_sign value }
{
    value.value() == 1 || value.value() == -1
}

/// The place of the last entry that isn't 0, and 0 where there is none.
pub fn last_place(row: &[Coeff]) -> usize
    ensures { result ≡ triangle.last_place row.now }
{
    let mut left = row.len();
    while left > 0 {
        left -= 1;
        if !row[left].is_zero() {
            return left;
        }
    }
    0
}

/// The last entry that isn't 0, and 0 where there is none, of a row whose last place is known.
pub fn value_ending_at(place: usize, row: &[Coeff]) -> Coeff
    requires { place ≡ triangle.last_place row.now }
    ensures { result ≡ triangle.last_value row.now }
{
    if place < row.len() {
        row[place]
    } else {
        Coeff::ZERO
    }
}

/// The last entry that isn't 0, and 0 where there is none.
pub fn last_value(row: &[Coeff]) -> Coeff
    ensures { result ≡ triangle.last_value row.now }
{
    value_ending_at(last_place(row), row)
}

/// The place where each level's coefficients of iterators end.
pub fn last_places(alloc: Global, levels: &[Affine]) -> Result<List<usize>, NoMemory>
    ensures { IfOk result (λ places. places ≡ map triangle.last_place (rows_of levels.now)) }
{
    let mut places = List::with_capacity(alloc, levels.len())?;
    for level in levels {
        let place = last_place(level.iterators());
        places.push(place)?;
    }
    Ok(places)
}

/// Whether the row has 1 or -1 at this place, and 0 elsewhere.
pub fn is_signed_unit(k: usize, row: &[Coeff]) -> bool
    ensures { result ≡ refusal.is_signed_unit k row.now }
{
    if k >= row.len() {
        return false;
    }
    let (before, from) = row.split_at(k);
    if !is_zero(before) {
        return false;
    }
    if !is_sign(row[k]) {
        return false;
    }
    is_zero(&from[1..])
}
