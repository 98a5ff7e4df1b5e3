//! The forms of integers and of names.

ghost use Rattle.std.specs.Prelude.{◌≡◌, bytes_eq, cond, not, pos, ◌&&◌, IfOk};
ghost use Rattle.row_core.specs.Rows.{scale};
ghost use Rattle.clan_extract.specs.Regions.{is_among};
ghost use Rattle.clan_extract.specs.Forms.{constant_form, first_of_name, innermost, multiple, name_form};
ghost use Rattle.clan_rows.specs.Contents.{affine_of};

use crate::forms::Form;
use row_core::{Coeff, DenseRow};
use scop_data::row_builders::zero_row;
use std::alloc::Global;
use suite_base::{NoMemory, Text};

// Whether two names are the same.
fn is_same(a: &[u8], b: &[u8]) -> bool
    ensures { result ≡ bytes_eq a.now b.now }
{
    a == b
}

// Whether the name stands in the list.
fn is_named(name: &[u8], names: &[Text]) -> bool
    ensures { result ≡ is_among name.now names.now }
{
    let mut rest = names;
    while let [first, others @ ..] = rest {
        if is_same(first.bytes(), name) {
            return true;
        }
        rest = others;
    }
    false
}

// Whether a loop is the innermost one of the name.
fn is_innermost(own: &[u8], inner: &[Text], name: &[u8]) -> bool
    ensures { result ≡ (bytes_eq own.now name.now && not (is_among name.now inner.now)) }
{
    is_same(own, name) && !is_named(name, inner)
}

// The factor, or 0.
fn factor_if(test: bool, factor: Coeff) -> Coeff
    ensures { result ≡ cond test factor (pos 0) }
{
    if test { factor } else { Coeff::ZERO }
}

// The factor for the innermost loop of the name, and 0 for the others.
fn innermost_row(
    alloc: Global,
    loops: &[Text],
    name: &[u8],
    factor: Coeff,
) -> Result<DenseRow, NoMemory>
    ensures { IfOk result (λ row. row ≡ scale factor (innermost loops.now name.now)) }
{
    let mut row = DenseRow::new(alloc);
    let mut rest = loops;
    while let [own, inner @ ..] = rest {
        row.push(factor_if(is_innermost(own.bytes(), inner, name), factor))?;
        rest = inner;
    }
    Ok(row)
}

// The factor for the first parameter of the name, and 0 for the others.
fn first_row(
    alloc: Global,
    parameters: &[Text],
    name: &[u8],
    factor: Coeff,
) -> Result<DenseRow, NoMemory>
    ensures { IfOk result (λ row. row ≡ scale factor (first_of_name parameters.now name.now)) }
{
    let mut row = DenseRow::new(alloc);
    let mut rest = parameters;
    while let [first, others @ ..] = rest {
        if is_same(first.bytes(), name) {
            row.push(factor)?;
            row.push_zeros(others.len())?;
            return Ok(row);
        }
        row.push(Coeff::ZERO)?;
        rest = others;
    }
    Ok(row)
}

// The parameters' coefficients of a name, by the factor.
fn parameter_row(
    alloc: Global,
    parameters: &[Text],
    loops: &[Text],
    name: &[u8],
    factor: Coeff,
) -> Result<DenseRow, NoMemory>
    ensures { IfOk result (λ row. row ≡ scale factor (name_form parameters.now loops.now name.now).parameters) }
{
    if is_named(name, loops) {
        let zeros = zero_row(alloc, parameters.len())?;
        return Ok(zeros);
    }
    first_row(alloc, parameters, name, factor)
}

impl Form {
    /// The form that is an integer, inside these loops.
    pub fn of_number(
        alloc: Global,
        parameters: &[Text],
        loops: &[Text],
        value: Coeff,
    ) -> Result<Form, NoMemory>
        ensures { IfOk result (λ form. affine_of form ≡ constant_form parameters.now loops.now value) }
    {
        Ok(Form {
            iterators: zero_row(alloc, loops.len())?,
            parameters: zero_row(alloc, parameters.len())?,
            constant: value,
        })
    }

    /// The form of a name inside these loops: the innermost loop of the name, else the parameter.
    #[tactic(auto, using(crate::proofs::Multiples::multiple_by_one))]
    pub fn of_name(
        alloc: Global,
        parameters: &[Text],
        loops: &[Text],
        name: &[u8],
    ) -> Result<Form, NoMemory>
        ensures { IfOk result (λ form. affine_of form ≡ name_form parameters.now loops.now name.now) }
    {
        Form::of_multiple(alloc, parameters, loops, name, Coeff::ONE)
    }

    /// The form of a name inside these loops, multiplied by a factor.
    pub fn of_multiple(
        alloc: Global,
        parameters: &[Text],
        loops: &[Text],
        name: &[u8],
        factor: Coeff,
    ) -> Result<Form, NoMemory>
        ensures { IfOk result (λ form. affine_of form ≡ multiple factor (name_form parameters.now loops.now name.now)) }
    {
        Ok(Form {
            iterators: innermost_row(alloc, loops, name, factor)?,
            parameters: parameter_row(alloc, parameters, loops, name, factor)?,
            constant: Coeff::ZERO,
        })
    }
}
