//! The rows of a loop's start and bound.

ghost use Rattle.std.specs.Prelude.{◌≡◌, ◌++◌, ◌∷◌, ◌&&◌, ◌+◌, [], cond, map, min, nat_le, Some, IfOk};
ghost use Rattle.clan_rows.specs.Pieces.{checked_form_row, with_one};
ghost use Rattle.clan_rows.specs.Bounds as spec;
ghost use Rattle.clan_rows.specs.Fitting.{fitting};
ghost use Rattle.clan_rows.specs.Contents.{affine_of, bounds_of, made, made_row, row_of};
ghost use Rattle.suite_base.specs.Limits.{max_rows};

use crate::constraints::FormRow;
use crate::forms::Form;
use relation_core::RowKind;
use row_core::Coeff;
use std::alloc::Global;
use suite_base::{List, MAX_ROWS, NoMemory};

/// The side on which an expression bounds an iterator.
#[derive(Clone, Copy, Debug, PartialEq, Eq)]
pub enum Side {
    Lower,
    Upper,
}

/// The rows of bounds, their number, cut one past its limit, and whether all forms and rows fit. There
/// are no rows where they are too many or something does not fit.
#[derive(Drop)]
pub struct Bounds {
    pub rows: List<FormRow>,
    pub count: usize,
    pub fits: bool,
}

// What a bound that is out of reach itself takes from its row.
fn strict_shift(strict: bool) -> i128
    ensures lower { result ≡ spec.value_shift Side.Lower strict }
    ensures upper { result ≡ spec.value_shift Side.Upper strict }
{
    if strict { -1 } else { 0 }
}

// The constant of the row of a value.
fn value_shift(side: Side, strict: bool) -> i128
    ensures { result ≡ spec.value_shift side strict }
{
    match side {
        Side::Lower => strict_shift(strict),
        Side::Upper => strict_shift(strict),
    }
}

// The constant of the row of a quotient that is rounded toward its side.
fn exact_shift(strict: bool, d: Coeff) -> i128
    ensures ceiling { result ≡ spec.ceiling_shift Side.Lower strict d }
    ensures floor { result ≡ spec.floor_shift Side.Upper strict d }
{
    if strict { -d.value() } else { 0 }
}

// The constant of the row of a quotient that is rounded away from its side.
fn rounded_shift(strict: bool, d: Coeff) -> i128
    ensures floor { result ≡ spec.floor_shift Side.Lower strict d }
    ensures ceiling { result ≡ spec.ceiling_shift Side.Upper strict d }
{
    if strict { -1 } else { d.value() - 1 }
}

// The constant of the row of a quotient rounded up.
fn ceiling_shift(side: Side, strict: bool, d: Coeff) -> i128
    ensures { result ≡ spec.ceiling_shift side strict d }
{
    match side {
        Side::Lower => exact_shift(strict, d),
        Side::Upper => rounded_shift(strict, d),
    }
}

// The constant of the row of a quotient rounded down.
fn floor_shift(side: Side, strict: bool, d: Coeff) -> i128
    ensures { result ≡ spec.floor_shift side strict d }
{
    match side {
        Side::Lower => rounded_shift(strict, d),
        Side::Upper => exact_shift(strict, d),
    }
}

/// The form of an iterator, `c` times, against a bound on this side, and `z`.
pub fn side_form(
    alloc: Global,
    side: Side,
    c: Coeff,
    f: &Form,
    z: i128,
) -> Result<Option<Form>, NoMemory>
    ensures { IfOk result (λ form. made form ≡ fitting (spec.side_form side c (affine_of f.now) z)) }
{
    match side {
        Side::Lower => {
            let opposite = f.opposite(alloc)?;
            opposite.with_iterator(alloc, c, z)
        }
        Side::Upper => f.with_iterator(alloc, c.negated(), z),
    }
}

// The row of such a form, which is at least 0.
#[tactic(auto, using(crate::proofs::Pieces::side_row_none, crate::proofs::Pieces::side_row_some))]
fn side_row(
    alloc: Global,
    side: Side,
    c: Coeff,
    f: &Form,
    z: i128,
) -> Result<Option<FormRow>, NoMemory>
    ensures { IfOk result (λ row. made_row row ≡ checked_form_row (spec.side_form side c (affine_of f.now) z)) }
{
    let form = side_form(alloc, side, c, f, z)?;
    match form {
        None => Ok(None),
        Some(form) => Ok(Some(FormRow {
            kind: RowKind::AtLeast,
            form,
            local: Coeff::ZERO,
        })),
    }
}

// One row more, but at most one past the limit.
fn one_more(count: usize) -> usize
    ensures { result ≡ min (count + 1) (max_rows + 1) }
{
    count.saturating_add(1).min(MAX_ROWS + 1)
}

// Whether so many rows are used, where they fit or not.
fn is_used(count: usize, fits: bool) -> bool
    ensures { result ≡ (nat_le count max_rows && fits) }
{
    count <= MAX_ROWS && fits
}

// The rows with one more, where they are used.
#[tactic(auto, using(crate::proofs::Pieces::rows_append))]
fn pushed_if(
    alloc: Global,
    used: bool,
    mut rows: List<FormRow>,
    row: FormRow,
) -> Result<List<FormRow>, NoMemory>
    ensures { IfOk result (λ made. map row_of made ≡ cond used (map row_of rows ++ row_of row ∷ []) []) }
{
    if used {
        rows.push(row)?;
        Ok(rows)
    } else {
        Ok(List::new(alloc))
    }
}

impl Bounds {
    /// No bounds.
    pub fn new(alloc: Global) -> Bounds
        ensures { bounds_of result ≡ spec.no_bounds }
    {
        Bounds {
            rows: List::new(alloc),
            count: 0,
            fits: true,
        }
    }

    // The bounds with one row more.
    #[tactic(auto, using(crate::proofs::Pieces::one_more_is))]
    fn with_fitting_row(self, alloc: Global, row: FormRow) -> Result<Bounds, NoMemory>
        ensures { IfOk result (λ bounds. bounds_of bounds ≡ with_one (Some (row_of row)) (bounds_of self)) }
    {
        let count = one_more(self.count);
        let used = is_used(count, self.fits);
        let rows = pushed_if(alloc, used, self.rows, row)?;
        Ok(Bounds {
            rows,
            count,
            fits: self.fits,
        })
    }

    // The bounds with one row more, which may not fit.
    #[tactic(auto, using(crate::proofs::Pieces::one_unfit_is))]
    fn with_row(self, alloc: Global, row: Option<FormRow>) -> Result<Bounds, NoMemory>
        ensures { IfOk result (λ bounds. bounds_of bounds ≡ with_one (made_row row) (bounds_of self)) }
    {
        match row {
            None => Ok(Bounds {
                rows: List::new(alloc),
                count: one_more(self.count),
                fits: false,
            }),
            Some(row) => self.with_fitting_row(alloc, row),
        }
    }

    /// The bounds with the row of a value. A `strict` bound is out of reach itself.
    #[tactic(auto, using(crate::proofs::Pieces::checked_row_is))]
    pub fn with_value(
        self,
        alloc: Global,
        side: Side,
        strict: bool,
        value: &Option<Form>,
    ) -> Result<Bounds, NoMemory>
        ensures { IfOk result (λ bounds. bounds_of bounds ≡ spec.with_value side strict (made value.now) (bounds_of self)) }
    {
        match value {
            None => self.with_row(alloc, None),
            Some(f) => {
                let z = value_shift(side, strict);
                let row = side_row(alloc, side, Coeff::ONE, f, z)?;
                self.with_row(alloc, row)
            }
        }
    }

    /// The bounds with the row of a quotient rounded up.
    #[tactic(auto, using(crate::proofs::Pieces::checked_row_is))]
    pub fn with_ceiling(
        self,
        alloc: Global,
        side: Side,
        strict: bool,
        dividend: &Option<Form>,
        divisor: Option<Coeff>,
    ) -> Result<Bounds, NoMemory>
        ensures { IfOk result (λ bounds. bounds_of bounds ≡ spec.with_ceiling side strict (made dividend.now) divisor (bounds_of self)) }
    {
        match dividend {
            None => self.with_row(alloc, None),
            Some(f) => match divisor {
                None => self.with_row(alloc, None),
                Some(d) => {
                    let z = ceiling_shift(side, strict, d);
                    let row = side_row(alloc, side, d, f, z)?;
                    self.with_row(alloc, row)
                }
            },
        }
    }

    /// The bounds with the row of a quotient rounded down.
    #[tactic(auto, using(crate::proofs::Pieces::checked_row_is))]
    pub fn with_floor(
        self,
        alloc: Global,
        side: Side,
        strict: bool,
        dividend: &Option<Form>,
        divisor: Option<Coeff>,
    ) -> Result<Bounds, NoMemory>
        ensures { IfOk result (λ bounds. bounds_of bounds ≡ spec.with_floor side strict (made dividend.now) divisor (bounds_of self)) }
    {
        match dividend {
            None => self.with_row(alloc, None),
            Some(f) => match divisor {
                None => self.with_row(alloc, None),
                Some(d) => {
                    let z = floor_shift(side, strict, d);
                    let row = side_row(alloc, side, d, f, z)?;
                    self.with_row(alloc, row)
                }
            },
        }
    }
}
