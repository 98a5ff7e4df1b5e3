//! Coefficients and rows of plain numbers.

ghost use Rattle.std.specs.Prelude.{OnOk};
ghost use Rattle.elim_core.specs.Reductions.{BeginsWith};

use relation_core::{Part, RowKind};
use row_core::Coeff;
use std::alloc::Global;
use std::process::Abort;
use std::test::Fail;
use suite_base::List;

/// The coefficient of a number.
pub fn coeff(rt: &impl Abort, n: i128) -> Coeff {
    Coeff::new(n).expect(rt, "a coefficient")
}

/// The coefficients of these numbers.
pub fn coeffs(rt: &impl Abort, alloc: Global, values: &[i128]) -> Result<List<Coeff>, Fail> {
    let mut list = List::new(alloc);
    for n in values {
        list.push(coeff(rt, *n))?;
    }
    Ok(list)
}

/// Appends a row.
pub fn push(rt: &impl Abort, part: &mut Part, kind: RowKind, values: &[i128]) -> Result<(), Fail>
    ensures { OnOk result (BeginsWith part.new part.old) }
{
    let row = coeffs(rt, part.allocator(), values)?;
    assert_eq!(rt; row.as_slice().len(), part.width());
    part.push_row(kind, row.as_slice())?;
    Ok(())
}

/// A number that a seed gives.
pub fn mixed(seed: u64) -> u64 {
    let a = seed.wrapping_add(0x9E37_79B9_7F4A_7C15);
    let b = (a ^ (a >> 30)).wrapping_mul(0xBF58_476D_1CE4_E5B9);
    let c = (b ^ (b >> 27)).wrapping_mul(0x94D0_49BB_1331_11EB);
    (c ^ (c >> 31)) >> 8
}
