//! Rows of systems, made from their few entries that aren't 0.

ghost use Rattle.std.specs.Prelude.{◌≡◌, ◌++◌, ◌∷◌, [], length, take, IfOk, OnOk};
ghost use Rattle.relation_core.specs.Systems.{width};
ghost use Rattle.elim_core.specs.Reductions.{BeginsWith};

use relation_core::{Part, RowKind};
use row_core::Coeff;
use std::alloc::Global;
use suite_base::NoMemory;

/// One entry of a row: its column, from 0, and a number that is added there.
#[derive(Clone, Copy)]
pub struct Term {
    pub column: usize,
    pub factor: i16,
}

/// The term of this column and factor.
pub fn at(column: usize, factor: i16) -> Term {
    Term { column, factor }
}

/// Appends the row that is the sum of these terms. What the system begins with stays.
pub fn push(system: &mut Part, kind: RowKind, terms: &[Term]) -> Result<(), NoMemory>
    ensures { OnOk result (BeginsWith system.new system.old) }
{
    let mut row = Vec::new(system.allocator());
    for k in 0..system.width() {
        row.push(entry(terms, k))?;
    }
    system.push_row(kind, row.as_slice())
}

// The entry of column `k`.
fn entry(terms: &[Term], k: usize) -> Coeff {
    let mut sum: i16 = 0;
    for term in terms {
        if term.column == k {
            sum = sum.saturating_add(term.factor);
        }
    }
    Coeff::bounded(i128::from(sum))
}
