//! A part: a system of affine rows over outputs, inputs, existential locals and parameters.

ghost use Rattle.std.specs.Prelude.{◌≡◌, ◌<◌, ◌≤◌, [], length, IfOk, OnOk, OnErr};
ghost use Rattle.suite_base.specs.Limits.{max_dimensions};
ghost use Rattle.row_core.specs.Rows.{entry};
ghost use Rattle.relation_core.specs.Systems.{width, HasLimits, IsWellFormed, row_at, no_rows, with_row, truncated, conjoined, with_local};

use crate::part_rows::{PartRow, RowKind};
use crate::row_lists::{copied, copied_with_zero};
use crate::shapes::Shape;
use row_core::{Coeff, DenseRow};
use std::alloc::Global;
use std::marker::Model;
use suite_base::NoMemory;

/// A system of rows of one shape. Contracts see its shape and its list of rows.
#[derive(Drop)]
pub struct Part {
    shape: Shape,
    rows: Vec<PartRow>,
}

impl Model for Part {
    ghost use Rattle.relation_core.specs.Systems.{System, IsWellFormed};

    ghost Value = { System };

    ghost view = { λ part. record { shape = part.shape; rows = part.rows.items } };

    ghost invariant = { λ part. IsWellFormed part.shape part.rows.items };
}

impl Part {
    /// The part without rows. Each number of `shape` is at most 65,536.
    pub fn new(alloc: Global, shape: Shape) -> Part
        requires { HasLimits shape }
        ensures { result ≡ no_rows shape }
    {
        Part {
            shape,
            rows: Vec::new(alloc),
        }
    }

    /// The part without rows, with room for so many. Each number of `shape` is at most 65,536.
    pub fn with_capacity(alloc: Global, shape: Shape, rows: usize) -> Result<Part, NoMemory>
        requires { HasLimits shape }
        ensures { IfOk result (λ part. part ≡ no_rows shape) }
    {
        Ok(Part {
            shape,
            rows: Vec::with_capacity(alloc, rows)?,
        })
    }

    /// A copy of the part.
    pub fn copy(&self, alloc: Global) -> Result<Part, NoMemory>
        ensures { IfOk result (λ part. part ≡ self.now) }
    {
        let rows = copied(alloc, self.rows.as_slice())?;
        Ok(Part {
            shape: self.shape,
            rows,
        })
    }

    /// Appends a row, which has one entry for each column and the constant. On want of memory the
    /// part is as before.
    pub fn push_row(&mut self, kind: RowKind, row: &[Coeff]) -> Result<(), NoMemory>
        requires { length row.now ≡ width self.old.shape }
        ensures ok { OnOk result (self.new ≡ with_row self.old kind row.now) }
        ensures err { OnErr result (self.new ≡ self.old) }
    {
        let entries = DenseRow::from_coeffs(self.allocator(), row)?;
        self.push_entries(kind, entries)
    }

    /// As `push_row`, but the row is taken over. On want of memory it goes, and the part is as before.
    pub fn push_entries(&mut self, kind: RowKind, entries: DenseRow) -> Result<(), NoMemory>
        requires { length entries ≡ width self.old.shape }
        ensures ok { OnOk result (self.new ≡ with_row self.old kind entries) }
        ensures err { OnErr result (self.new ≡ self.old) }
    {
        let _in_range = entries.len();
        self.rows.push(PartRow { kind, entries })?;
        Ok(())
    }

    /// Keeps the first `count` rows, or all where there are no more than that.
    pub fn truncate(&mut self, count: usize)
        ensures { self.new ≡ truncated count self.old }
    {
        self.rows.truncate(count);
    }

    /// Appends the rows of `other`, a part of the same shape. On want of memory the part is as
    /// before.
    pub fn conjoin(&mut self, other: &Part) -> Result<(), NoMemory>
        requires { self.old.shape ≡ other.now.shape }
        ensures ok { OnOk result (self.new ≡ conjoined self.old other.now) }
        ensures err { OnErr result (self.new ≡ self.old) }
    {
        let mut added = copied(self.allocator(), other.rows.as_slice())?;
        self.rows.append(&mut added)?;
        Ok(())
    }

    /// The part with one more local, whose column is zero and stands before the local `at`, or after
    /// all locals where `at` is their number. There are fewer than 65,536 locals.
    pub fn with_column(&self, alloc: Global, at: usize) -> Result<Part, NoMemory>
        requires room { self.now.shape.locals < max_dimensions }
        requires place { at ≤ self.now.shape.locals }
        ensures { IfOk result (λ part. part ≡ with_local self.now at) }
    {
        let column = self.shape.outputs + self.shape.inputs + at;
        let rows = copied_with_zero(alloc, self.rows.as_slice(), column)?;
        let shape = Shape {
            outputs: self.shape.outputs,
            inputs: self.shape.inputs,
            locals: self.shape.locals + 1,
            parameters: self.shape.parameters,
        };
        Ok(Part { shape, rows })
    }

    /// The allocator that the part keeps.
    pub fn allocator(&self) -> Global {
        *self.rows.allocator()
    }

    /// The rows in order.
    pub fn rows(&self) -> &[PartRow]
        ensures { result.now ≡ self.now.rows }
    {
        self.rows.as_slice()
    }

    /// How many columns of each sort the part has.
    pub fn shape(&self) -> Shape
        ensures answer { result ≡ self.now.shape }
        ensures limits { HasLimits result }
    {
        self.shape
    }

    /// The number of entries of each row: all columns and the constant.
    pub fn width(&self) -> usize
        ensures { result ≡ width self.now.shape }
    {
        self.shape.outputs + self.shape.inputs + self.shape.locals + self.shape.parameters + 1
    }

    /// The number of rows.
    pub fn row_count(&self) -> usize
        ensures answer { result ≡ length self.now.rows }
        ensures form { IsWellFormed self.now.shape self.now.rows }
    {
        self.rows.len()
    }

    /// The kind of row `row`, from 0, which is below the number of rows.
    pub fn kind(&self, row: usize) -> RowKind
        requires { row < length self.now.rows }
        ensures { result ≡ (row_at self.now.rows row).kind }
    {
        self.rows.as_slice()[row].kind
    }

    /// The entry of row `row` at `column`, both from 0 and in range; the last column is the constant.
    pub fn entry(&self, row: usize, column: usize) -> Coeff
        requires row { row < length self.now.rows }
        requires column { column < width self.now.shape }
        ensures { result ≡ entry (row_at self.now.rows row).entries column }
    {
        self.rows.as_slice()[row].entries.get(column)
    }
}
