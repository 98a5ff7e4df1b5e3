//! One row of a part: an affine form that is 0, or at least 0.

ghost use Rattle.std.specs.Prelude.{◌≡◌, IfOk};

use row_core::DenseRow;
use std::alloc::Global;
use suite_base::NoMemory;

/// What a row asks of its value.
#[derive(Clone, Copy, Debug, PartialEq, Eq)]
pub enum RowKind {
    /// The value is 0.
    Equal,
    /// The value is at least 0.
    AtLeast,
}

/// A row: its kind, and the coefficients of outputs, inputs, locals, parameters and the constant.
#[derive(Drop)]
pub struct PartRow {
    pub kind: RowKind,
    pub entries: DenseRow,
}

impl PartRow {
    /// A copy of the row.
    pub fn copy(&self, alloc: Global) -> Result<PartRow, NoMemory>
        ensures { IfOk result (λ row. row ≡ self.now) }
    {
        Ok(PartRow {
            kind: self.kind,
            entries: self.entries.copy(alloc)?,
        })
    }
}
