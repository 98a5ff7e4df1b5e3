//! Rows at worked values, the ends of a coefficient's range included.

use crate::values::{coeff, coeffs};
use row_core::{
    Coeff, DenseRow, Entry, Row, RowFail, SparseRow, Sum, add_scaled, negated, swap_columns,
    value_sign,
};
use std::alloc::Global;
use std::process::Abort;
use std::test::Fail;

const MOST: i128 = i128::MAX;

const HALF: i128 = 1 << 126;

fn has_entries<R: Row>(rt: &impl Abort, row: &R, values: &[i128]) {
    assert_eq!(rt; row.len(), values.len());
    for k in 0..values.len() {
        assert!(rt; k < row.len());
        assert_eq!(rt; row.get(k).value(), values[k], "entry {k}");
    }
}

fn row_of<R: Row>(rt: &impl Abort, alloc: Global, values: &[i128]) -> Result<R, Fail> {
    let list = coeffs(rt, alloc, values)?;
    Ok(R::from_coeffs(alloc, list.as_slice())?)
}

#[derive(Drop)]
struct Case {
    p: i128,
    a: &'static [i128],
    q: i128,
    b: &'static [i128],
    wanted: Option<&'static [i128]>,
}

fn combines<R: Row>(rt: &impl Abort, alloc: Global, case: &Case) -> Result<(), Fail> {
    let a: R = row_of(rt, alloc, case.a)?;
    let b: R = row_of(rt, alloc, case.b)?;
    assert_eq!(rt; a.len(), b.len());
    let made = R::combine(alloc, coeff(rt, case.p), &a, coeff(rt, case.q), &b);
    match (made, case.wanted) {
        (Ok(row), Some(values)) => has_entries(rt, &row, values),
        (Err(fail), None) => assert_eq!(rt; fail, RowFail::Overflow),
        _ => panic!(rt; "another outcome"),
    }
    Ok(())
}

#[test]
fn combinations(rt: HostRuntime) -> Result<(), Fail> {
    let cases: [Case; 11] = [
        Case {
            p: 2,
            a: &[1, -3],
            q: 3,
            b: &[0, 1],
            wanted: Some(&[2, -3]),
        },
        Case {
            p: 2,
            a: &[HALF],
            q: 0,
            b: &[0],
            wanted: None,
        },
        Case {
            p: 1,
            a: &[MOST],
            q: 0,
            b: &[0],
            wanted: Some(&[MOST]),
        },
        Case {
            p: 1,
            a: &[MOST],
            q: -1,
            b: &[1],
            wanted: None,
        },
        Case {
            p: 1,
            a: &[MOST - 1],
            q: -1,
            b: &[1],
            wanted: Some(&[MOST - 2]),
        },
        Case {
            p: -1,
            a: &[MOST],
            q: 0,
            b: &[5],
            wanted: Some(&[-MOST]),
        },
        Case {
            p: MOST,
            a: &[MOST],
            q: 1,
            b: &[1],
            wanted: None,
        },
        Case {
            p: 2,
            a: &[HALF - 1],
            q: 1,
            b: &[1],
            wanted: Some(&[MOST]),
        },
        Case {
            p: 1,
            a: &[0, MOST, 0],
            q: 1,
            b: &[0, 0, MOST],
            wanted: Some(&[0, MOST, MOST]),
        },
        Case {
            p: 1,
            a: &[0, 0, 1],
            q: 1,
            b: &[4, 0, MOST],
            wanted: None,
        },
        Case {
            p: 1,
            a: &[],
            q: 1,
            b: &[],
            wanted: Some(&[]),
        },
    ];
    for case in &cases {
        combines::<DenseRow>(&rt, rt.alloc(), case)?;
        combines::<SparseRow>(&rt, rt.alloc(), case)?;
    }
    Ok(())
}

#[test]
fn ends_of_a_coefficient(rt: HostRuntime) {
    for (n, fits) in [(0, true), (MOST, true), (-MOST, true), (i128::MIN, false)] {
        match Coeff::new(n) {
            Some(c) => {
                assert_eq!(rt; c.value(), n);
                assert_eq!(rt; c.negated().value() + n, 0);
                assert!(rt; fits);
            }
            None => assert!(rt; !fits),
        }
    }
    let most = coeff(&rt, MOST);
    let full = Sum::zero().add(Coeff::ONE, most).expect(&rt, "a light sum");
    assert_eq!(rt; full.value().value(), MOST);
    assert_eq!(rt; full.add(Coeff::ONE, Coeff::ONE).is_none(), true);
}

#[test]
fn sums_and_negatives(rt: HostRuntime) -> Result<(), Fail> {
    let one: DenseRow = row_of(&rt, rt.alloc(), &[1])?;
    has_entries(
        &rt,
        &add_scaled(rt.alloc(), &one, coeff(&rt, -1), &one)?,
        &[0],
    );
    let row: DenseRow = row_of(&rt, rt.alloc(), &[MOST, 0, -3])?;
    has_entries(&rt, &negated(rt.alloc(), &row)?, &[-MOST, 0, 3]);
    Ok(())
}

#[test]
fn signs_and_exchanges(rt: HostRuntime) -> Result<(), Fail> {
    let mut row: DenseRow = row_of(&rt, rt.alloc(), &[MOST, 0, -3])?;
    assert_eq!(rt; row.len(), 3);
    assert_eq!(rt; value_sign(&row, 0), 1);
    assert_eq!(rt; value_sign(&row, 1), 0);
    assert_eq!(rt; value_sign(&row, 2), -1);
    swap_columns(&mut row, 0, 2);
    has_entries(&rt, &row, &[-3, 0, MOST]);
    Ok(())
}

#[test]
fn entries_of_a_sparse_row(rt: HostRuntime) -> Result<(), Fail> {
    let alloc = rt.alloc();
    let values = coeffs(&rt, alloc, &[0, 5, 0, -1])?;
    let row = SparseRow::from_coeffs(alloc, values.as_slice())?;
    let wanted = [
        Entry {
            place: 1,
            value: coeff(&rt, 5),
        },
        Entry {
            place: 3,
            value: coeff(&rt, -1),
        },
    ];
    assert_eq!(rt; row.entries(), wanted.as_slice());
    Ok(())
}
