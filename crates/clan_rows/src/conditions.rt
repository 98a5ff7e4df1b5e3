//! The layers of comparisons.

ghost use Rattle.std.specs.Prelude.{◌≡◌, ◌∷◌, [], cond, negsuc, pos, unsigned_abs, ◌-ℤ◌, Some, None, true, IfOk};
ghost use Rattle.clan_extract.specs.Constraints as spec;
ghost use Rattle.clan_extract.specs.Counts.{one_part};
ghost use Rattle.clan_extract.specs.Forms.{opposite_of};
ghost use Rattle.clan_extract.specs.Regions.{IsUnequal};
ghost use Rattle.clan_rows.specs.Fitting.{fitting};
ghost use Rattle.clan_rows.specs.Pieces.{checked_part, part_layer};
ghost use Rattle.clan_rows.specs.Comparisons.{meaning_of};
ghost use Rattle.clan_rows.specs.Contents.{affine_of, made, made_part, part_of, row_of, said, AgreeInShape, HaveOneShape};
ghost use Rattle.clan_rows.specs.Layers.{comparison_layer, remainder_layer};

use crate::coefficients::size_of;
use crate::comparisons::Comparison;
use crate::constraints::{Constraint, FormRow, part_of_one, part_of_row};
use crate::counts::Count;
use crate::forms::Form;
use crate::layers::Layer;
use relation_core::RowKind;
use row_core::Coeff;
use std::alloc::Global;
use suite_base::{List, NoMemory};

// The part that asks for `f - g`, less 1 where it is `strict`, to be 0 or at least 0.
#[tactic(auto, using(crate::proofs::Pieces::row_part_none, crate::proofs::Pieces::row_part_some))]
fn row_part(
    alloc: Global,
    kind: RowKind,
    f: &Form,
    g: &Form,
    strict: bool,
) -> Result<Option<List<Constraint>>, NoMemory>
    requires { HaveOneShape f.now g.now }
    ensures { IfOk result (λ part. made_part part ≡ checked_part (spec.row_part kind (affine_of f.now) (affine_of g.now) (cond strict (negsuc 0) (pos 0)))) }
{
    let form = f.minus(alloc, g, strict)?;
    match form {
        None => Ok(None),
        Some(form) => {
            let row = FormRow {
                kind,
                form,
                local: Coeff::ZERO,
            };
            Ok(Some(part_of_row(alloc, row, false)?))
        }
    }
}

// The layer of one such part.
#[tactic(auto, using(crate::proofs::Pieces::single_is))]
fn row_layer(
    alloc: Global,
    kind: RowKind,
    f: &Form,
    g: &Form,
    strict: bool,
) -> Result<Layer, NoMemory>
    requires { HaveOneShape f.now g.now }
    ensures { IfOk result (λ made. said made ≡ part_layer (one_part 1 0) (spec.row_part kind (affine_of f.now) (affine_of g.now) (cond strict (negsuc 0) (pos 0)))) }
{
    let part = row_part(alloc, kind, f, g, strict)?;
    Layer::of_part(alloc, Count::one_part(1, 0), part)
}

// The layer of two parts: the one form is above the other, or below it.
#[tactic(auto, using(crate::proofs::Pieces::double_is))]
fn unequal_layer(alloc: Global, f: &Form, g: &Form) -> Result<Layer, NoMemory>
    requires there { HaveOneShape f.now g.now }
    requires back { HaveOneShape g.now f.now }
    ensures { IfOk result (λ made. said made ≡ comparison_layer IsUnequal (Some (affine_of f.now)) (Some (affine_of g.now))) }
{
    let above = row_part(alloc, RowKind::AtLeast, f, g, true)?;
    let below = row_part(alloc, RowKind::AtLeast, g, f, true)?;
    Layer::of_two_parts(alloc, above, below)
}

// The layer of a comparison of two forms.
fn compared(
    alloc: Global,
    comparison: Comparison,
    left: &Form,
    right: &Form,
) -> Result<Layer, NoMemory>
    requires there { HaveOneShape left.now right.now }
    requires back { HaveOneShape right.now left.now }
    ensures { IfOk result (λ layer. said layer ≡ comparison_layer (meaning_of comparison) (Some (affine_of left.now)) (Some (affine_of right.now))) }
{
    match comparison {
        Comparison::Less => row_layer(alloc, RowKind::AtLeast, right, left, true),
        Comparison::LessOrEqual => row_layer(alloc, RowKind::AtLeast, right, left, false),
        Comparison::Greater => row_layer(alloc, RowKind::AtLeast, left, right, true),
        Comparison::GreaterOrEqual => row_layer(alloc, RowKind::AtLeast, left, right, false),
        Comparison::Equal => row_layer(alloc, RowKind::Equal, left, right, false),
        Comparison::Unequal => unequal_layer(alloc, left, right),
    }
}

// The part that asks for a multiple of the divisor.
#[tactic(auto, using(crate::proofs::Pieces::multiple_part_is))]
fn multiple_part(
    alloc: Global,
    f: &Form,
    divisor: Coeff,
) -> Result<Option<List<Constraint>>, NoMemory>
    ensures { IfOk result (λ part. made_part part ≡ checked_part (spec.multiple_part (affine_of f.now) (unsigned_abs divisor))) }
{
    f.stays_in_range();
    let size = size_of(divisor);
    let _in_range = size.value();
    let row = FormRow {
        kind: RowKind::Equal,
        form: f.copy(alloc)?,
        local: size.negated(),
    };
    Ok(Some(part_of_row(alloc, row, true)?))
}

// The part of two rows at least 0.
fn part_of_rows(alloc: Global, low: FormRow, high: FormRow) -> Result<List<Constraint>, NoMemory>
    ensures { IfOk result (λ part. part_of part ≡ record { rows = row_of low ∷ (row_of high ∷ []); has_local = true } ∷ []) }
{
    let mut rows = List::new(alloc);
    rows.push(low)?;
    rows.push(high)?;
    part_of_one(alloc, Constraint::of_rows(alloc, rows, true)?)
}

// The form less 1.
fn low_form(alloc: Global, f: &Form) -> Result<Option<Form>, NoMemory>
    ensures { IfOk result (λ form. made form ≡ fitting (spec.plus (affine_of f.now) (negsuc 0))) }
{
    let copy = f.copy(alloc)?;
    Ok(copy.shifted(-1))
}

// The negative of the form, and the divisor less 1.
fn high_form(alloc: Global, f: &Form, divisor: Coeff) -> Result<Option<Form>, NoMemory>
    ensures { IfOk result (λ form. made form ≡ fitting (spec.plus (opposite_of (affine_of f.now)) (pos (unsigned_abs divisor) -ℤ pos 1))) }
{
    let opposite = f.opposite(alloc)?;
    Ok(opposite.shifted(size_of(divisor).value() - 1))
}

// The part that asks for no multiple of the divisor: for more than one, and less than the next one.
#[tactic(auto, using(crate::proofs::Pieces::between_none_low, crate::proofs::Pieces::between_none_high, crate::proofs::Pieces::between_some))]
fn between_part(
    alloc: Global,
    f: &Form,
    divisor: Coeff,
) -> Result<Option<List<Constraint>>, NoMemory>
    ensures { IfOk result (λ part. made_part part ≡ checked_part (spec.between_part (affine_of f.now) (unsigned_abs divisor))) }
{
    let size = size_of(divisor);
    let _in_range = size.value();
    let low = low_form(alloc, f)?;
    let high = high_form(alloc, f, divisor)?;
    match low {
        None => Ok(None),
        Some(low) => match high {
            None => Ok(None),
            Some(high) => {
                let low = FormRow {
                    kind: RowKind::AtLeast,
                    form: low,
                    local: size.negated(),
                };
                let high = FormRow {
                    kind: RowKind::AtLeast,
                    form: high,
                    local: size,
                };
                Ok(Some(part_of_rows(alloc, low, high)?))
            }
        },
    }
}

// The layer of the multiples of the divisor.
#[tactic(auto, using(crate::proofs::Pieces::single_is))]
fn multiple_layer(alloc: Global, f: &Form, divisor: Coeff) -> Result<Layer, NoMemory>
    ensures { IfOk result (λ made. said made ≡ part_layer (one_part 1 1) (spec.multiple_part (affine_of f.now) (unsigned_abs divisor))) }
{
    let part = multiple_part(alloc, f, divisor)?;
    Layer::of_part(alloc, Count::one_part(1, 1), part)
}

// The layer of what is no multiple of the divisor.
#[tactic(auto, using(crate::proofs::Pieces::single_is))]
fn between_layer(alloc: Global, f: &Form, divisor: Coeff) -> Result<Layer, NoMemory>
    ensures { IfOk result (λ made. said made ≡ part_layer (one_part 2 1) (spec.between_part (affine_of f.now) (unsigned_abs divisor))) }
{
    let part = between_part(alloc, f, divisor)?;
    Layer::of_part(alloc, Count::one_part(2, 1), part)
}

// The layer of a comparison of a form's remainder with 0.
fn compared_remainder(
    alloc: Global,
    comparison: Comparison,
    f: &Form,
    divisor: Coeff,
) -> Result<Layer, NoMemory>
    ensures { IfOk result (λ layer. said layer ≡ remainder_layer (meaning_of comparison) (Some (affine_of f.now)) (Some divisor)) }
{
    match comparison {
        Comparison::Unequal => between_layer(alloc, f, divisor),
        _ => multiple_layer(alloc, f, divisor),
    }
}

// The layer of a comparison of what does not fit.
fn unfit_comparison(alloc: Global, comparison: Comparison) -> Result<Layer, NoMemory>
    ensures { IfOk result (λ layer. said layer ≡ comparison_layer (meaning_of comparison) None None) }
{
    match comparison {
        Comparison::Unequal => Layer::of_two_parts(alloc, None, None),
        _ => Layer::of_part(alloc, Count::one_part(1, 0), None),
    }
}

// The layer of a comparison of a remainder that does not fit.
fn unfit_remainder(alloc: Global, comparison: Comparison) -> Result<Layer, NoMemory>
    ensures { IfOk result (λ layer. said layer ≡ remainder_layer (meaning_of comparison) None None) }
{
    match comparison {
        Comparison::Unequal => Layer::of_part(alloc, Count::one_part(2, 1), None),
        _ => Layer::of_part(alloc, Count::one_part(1, 1), None),
    }
}

impl Layer {
    /// The layer of a comparison of two values over the same loops and parameters.
    pub fn of_comparison(
        alloc: Global,
        comparison: Comparison,
        left: &Option<Form>,
        right: &Option<Form>,
    ) -> Result<Layer, NoMemory>
        requires there { AgreeInShape left.now right.now }
        requires back { AgreeInShape right.now left.now }
        ensures { IfOk result (λ layer. said layer ≡ comparison_layer (meaning_of comparison) (made left.now) (made right.now)) }
    {
        match left {
            None => unfit_comparison(alloc, comparison),
            Some(f) => match right {
                None => unfit_comparison(alloc, comparison),
                Some(g) => compared(alloc, comparison, f, g),
            },
        }
    }

    /// The layer of a comparison, by `==` or `!=`, of 0 and the remainder of a value by a divisor.
    pub fn of_remainder(
        alloc: Global,
        comparison: Comparison,
        value: &Option<Form>,
        divisor: Option<Coeff>,
    ) -> Result<Layer, NoMemory>
        ensures { IfOk result (λ layer. said layer ≡ remainder_layer (meaning_of comparison) (made value.now) divisor) }
    {
        match value {
            None => unfit_remainder(alloc, comparison),
            Some(f) => match divisor {
                None => unfit_remainder(alloc, comparison),
                Some(divisor) => compared_remainder(alloc, comparison, f, divisor),
            },
        }
    }
}
