//! The reduction substitutes, and by the row's own `combine`.

use crate::test_systems::columns;
use crate::values::push;
use elim_core::reduce;
use relation_core::RowKind;
use row_core::{Coeff, DenseRow, Row, RowFail, SparseRow};
use std::alloc::Global;
use std::process::Abort;
use std::test::Fail;
use suite_base::NoMemory;

/// A row that is never combined: memory is always wanting for that.
#[derive(Drop)]
struct Barren {
    row: DenseRow,
}

impl Row for Barren {
    ghost use Rattle.row_core.specs.Linear.{dot_combination};

    ghost coefficients = { λ barren. barren.row };

    fn from_coeffs(alloc: Global, coeffs: &[Coeff]) -> Result<Barren, NoMemory> {
        let row = DenseRow::from_coeffs(alloc, coeffs)?;
        Ok(Barren { row })
    }

    fn with_capacity(alloc: Global, count: usize) -> Result<Barren, NoMemory> {
        let row = DenseRow::with_capacity(alloc, count)?;
        Ok(Barren { row })
    }

    fn push(&mut self, value: Coeff) -> Result<(), NoMemory> {
        self.row.push(value)
    }

    fn push_zeros(&mut self, count: usize) -> Result<(), NoMemory> {
        self.row.push_zeros(count)
    }

    fn next_place(&self, start: usize, end: usize) -> usize {
        self.row.next_place(start, end)
    }

    fn len(&self) -> usize {
        self.row.len()
    }

    fn get(&self, k: usize) -> Coeff {
        self.row.get(k)
    }

    fn combine(
        _alloc: Global,
        _p: Coeff,
        _a: &Barren,
        _q: Coeff,
        _b: &Barren,
    ) -> Result<Barren, RowFail> {
        Err(RowFail::Memory)
    }

    fn copy(&self, alloc: Global) -> Result<Barren, NoMemory> {
        let row = self.row.copy(alloc)?;
        Ok(Barren { row })
    }

    ghost linear = { λ p a q b row. dot_combination p a.row q b.row row.row };
}

#[test]
fn equalities_are_substituted(rt: HostRuntime) -> Result<(), Fail> {
    let mut apart = columns(rt.alloc(), 1, 1);
    push(&rt, &mut apart, RowKind::AtLeast, &[1, 1, -1])?;
    assert!(&rt; reduce::<Barren>(rt.alloc(), &apart).is_ok());
    push(&rt, &mut apart, RowKind::Equal, &[1, -1, 0])?;
    assert!(&rt; reduce::<Barren>(rt.alloc(), &apart).is_err());
    assert!(&rt; reduce::<SparseRow>(rt.alloc(), &apart).is_ok());
    let mut tied = columns(rt.alloc(), 1, 1);
    push(&rt, &mut tied, RowKind::Equal, &[1, -1, 0])?;
    push(&rt, &mut tied, RowKind::AtLeast, &[1, 1, -1])?;
    assert!(&rt; reduce::<Barren>(rt.alloc(), &tied).is_err());
    Ok(())
}
