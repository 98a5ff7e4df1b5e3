//! A quick look for two rows that contradict each other, before any search.
//!
//! Nothing of this is proved but that it ends safely, so whoever calls it checks what it has found.

use farkas_cert::Certificate;
use relation_core::{Part, PartRow, RowKind};
use row_core::Coeff;
use std::alloc::Global;
use suite_base::NoMemory;

// Two rows by their places, and their multipliers.
#[derive(Clone, Copy, Debug)]
struct Opposed {
    first: usize,
    second: usize,
    factors: (Coeff, Coeff),
}

/// The multipliers of a row and of one of the last two that contradict each other, or of one of these that
/// contradicts itself; `None` where there are none. They are only a candidate.
pub fn opposed_rows(alloc: Global, system: &Part) -> Result<Option<Certificate>, NoMemory> {
    match find_opposed(system.rows()) {
        None => Ok(None),
        Some(found) => {
            let certificate = certificate_of(alloc, system.row_count(), &found)?;
            Ok(Some(certificate))
        }
    }
}

// The last row, or that before it, and the first row that contradicts it.
fn find_opposed(rows: &[PartRow]) -> Option<Opposed> {
    let [before @ .., last] = rows else {
        return None;
    };
    match opposed_to(rows, before.len(), last) {
        Some(found) => Some(found),
        None => match before {
            [.., next] => opposed_to(rows, before.len().saturating_sub(1), next),
            [] => None,
        },
    }
}

// The first row that contradicts `row`, which stands at place `at`.
fn opposed_to(rows: &[PartRow], at: usize, row: &PartRow) -> Option<Opposed> {
    let entries = row.entries.as_slice();
    let lead = leading_place(entries);
    for k in 0..rows.len() {
        if !agree_at(rows[k].entries.as_slice(), entries, lead) {
            continue;
        }
        if let Some(factors) = factors_of(&rows[k], row) {
            return Some(Opposed {
                first: k,
                second: at,
                factors,
            });
        }
    }
    None
}

// The place of a row's first coefficient that is not 0; its length where only the constant may be.
fn leading_place(entries: &[Coeff]) -> usize {
    let [coefficients @ .., _] = entries else {
        return 0;
    };
    for k in 0..coefficients.len() {
        if !coefficients[k].is_zero() {
            return k;
        }
    }
    entries.len()
}

// Whether two rows agree at a place up to the sign, or have none there. Most rows that are neither equal nor
// opposite differ there already.
fn agree_at(xs: &[Coeff], ys: &[Coeff], place: usize) -> bool {
    match (xs.get(place), ys.get(place)) {
        (Some(x), Some(y)) => x.value().unsigned_abs() == y.value().unsigned_abs(),
        _ => true,
    }
}

// The multipliers of two rows that contradict each other.
fn factors_of(a: &PartRow, b: &PartRow) -> Option<(Coeff, Coeff)> {
    let [xs @ .., x] = a.entries.as_slice() else {
        return None;
    };
    let [ys @ .., y] = b.entries.as_slice() else {
        return None;
    };
    if are_opposite(xs, ys) {
        return factors_of_sum(a.kind, *x, b.kind, *y);
    }
    if xs == ys {
        return factors_of_difference(a.kind, *x, b.kind, *y);
    }
    None
}

// Whether each coefficient is the negative of the other.
fn are_opposite(xs: &[Coeff], ys: &[Coeff]) -> bool {
    if xs.len() != ys.len() {
        return false;
    }
    for k in 0..xs.len() {
        if xs[k] != ys[k].negated() {
            return false;
        }
    }
    true
}

// The multipliers of two rows whose sum is x + y, if that cannot hold.
fn factors_of_sum(a: RowKind, x: Coeff, b: RowKind, y: Coeff) -> Option<(Coeff, Coeff)> {
    let turned = y.negated().value();
    if x.value() < turned {
        return Some((Coeff::ONE, Coeff::ONE));
    }
    if x.value() > turned && a == RowKind::Equal && b == RowKind::Equal {
        return Some((Coeff::ONE.negated(), Coeff::ONE.negated()));
    }
    None
}

// The multipliers of two rows whose difference is x - y, if that cannot hold.
fn factors_of_difference(a: RowKind, x: Coeff, b: RowKind, y: Coeff) -> Option<(Coeff, Coeff)> {
    if x.value() < y.value() && b == RowKind::Equal {
        return Some((Coeff::ONE, Coeff::ONE.negated()));
    }
    if y.value() < x.value() && a == RowKind::Equal {
        return Some((Coeff::ONE.negated(), Coeff::ONE));
    }
    None
}

// One multiplier for each row: those of the two, and else 0.
fn certificate_of(alloc: Global, rows: usize, found: &Opposed) -> Result<Certificate, NoMemory> {
    let mut certificate = Certificate::zeros(alloc, rows)?;
    put(&mut certificate, found.first, found.factors.0);
    put(&mut certificate, found.second, found.factors.1);
    Ok(certificate)
}

// Puts a multiplier at a place, where there is one.
fn put(certificate: &mut Certificate, k: usize, multiplier: Coeff) {
    if k < certificate.len() {
        certificate.set(k, multiplier);
    }
}
