//! Rows of forms, and the constraints that they make.

ghost use Rattle.std.specs.Prelude.{◌≡◌, ◌++◌, ◌∷◌, [], IfOk, OnOk};
ghost use Rattle.clan_rows.specs.Contents.{constraint_of, part_of, row_of};

use crate::forms::Form;
use relation_core::RowKind;
use row_core::Coeff;
use std::alloc::Global;
use std::marker::Model;
use std::rc::Rc;
use suite_base::{List, NoMemory};

/// A form plus a multiple of a local, which is 0 or at least 0.
#[derive(Drop)]
pub struct FormRow {
    pub kind: RowKind,
    pub form: Form,
    pub local: Coeff,
}

/// Rows that many parts share: a copy takes no room. Contracts see the list of the rows.
#[derive(Drop)]
pub struct SharedRows {
    rows: Rc<List<FormRow>>,
}

impl Model for SharedRows {
    ghost use Rattle.std.specs.Prelude.{List};
    ghost use Rattle.clan_rows.specs.declared.constraints.FormRow.{FormRow};

    ghost Value = { List FormRow };

    ghost view = { λ shared. shared.rows.value };
}

/// Rows that hold together, with a local of their own or without one.
#[derive(Drop)]
pub struct Constraint {
    pub rows: SharedRows,
    pub has_local: bool,
}

impl SharedRows {
    /// The rows, to be shared.
    pub fn new(alloc: Global, rows: List<FormRow>) -> Result<SharedRows, NoMemory>
        ensures { IfOk result (λ shared. shared ≡ rows) }
    {
        Ok(SharedRows {
            rows: Rc::new(alloc, rows)?,
        })
    }

    /// The rows as a slice.
    pub fn as_slice(&self) -> &[FormRow]
        ensures { result.now ≡ self.now }
    {
        self.rows.as_ref().as_slice()
    }

    // The same rows once more.
    fn share(&self) -> Result<SharedRows, NoMemory>
        ensures { IfOk result (λ shared. shared ≡ self.now) }
    {
        Ok(SharedRows {
            rows: self.rows.clone()?,
        })
    }
}

impl Constraint {
    /// The constraint of these rows.
    pub fn of_rows(
        alloc: Global,
        rows: List<FormRow>,
        has_local: bool,
    ) -> Result<Constraint, NoMemory>
        ensures { IfOk result (λ made. made ≡ record { rows = rows; has_local = has_local }) }
    {
        Ok(Constraint {
            rows: SharedRows::new(alloc, rows)?,
            has_local,
        })
    }

    /// The constraint of one row.
    pub fn of_row(alloc: Global, row: FormRow, has_local: bool) -> Result<Constraint, NoMemory>
        ensures { IfOk result (λ made. constraint_of made ≡ record { rows = row_of row ∷ []; has_local = has_local }) }
    {
        let mut rows = List::new(alloc);
        rows.push(row)?;
        Constraint::of_rows(alloc, rows, has_local)
    }

    /// An equal constraint, which shares its rows with this one.
    pub fn share(&self) -> Result<Constraint, NoMemory>
        ensures { IfOk result (λ made. made ≡ self.now) }
    {
        Ok(Constraint {
            rows: self.rows.share()?,
            has_local: self.has_local,
        })
    }
}

/// Appends `constraints`, whose rows are shared.
pub fn push_shared(constraints: &[Constraint], part: &mut List<Constraint>) -> Result<(), NoMemory>
    ensures { OnOk result (part.new ≡ part.old ++ constraints.now) }
{
    for constraint in constraints {
        part.push(constraint.share()?)?;
    }
    Ok(())
}

/// The part of one constraint.
pub fn part_of_one(alloc: Global, constraint: Constraint) -> Result<List<Constraint>, NoMemory>
    ensures { IfOk result (λ part. part_of part ≡ constraint_of constraint ∷ []) }
{
    let mut part = List::new(alloc);
    part.push(constraint)?;
    Ok(part)
}

/// The part of one row.
pub fn part_of_row(
    alloc: Global,
    row: FormRow,
    has_local: bool,
) -> Result<List<Constraint>, NoMemory>
    ensures { IfOk result (λ part. part_of part ≡ record { rows = row_of row ∷ []; has_local = has_local } ∷ []) }
{
    part_of_one(alloc, Constraint::of_row(alloc, row, has_local)?)
}
