//! The split of one statement in two, by the sign of an affine condition.

ghost use Rattle.std.specs.Prelude.{◌≡◌, ◌+◌, ◌<◌, ◌≤◌, ◌^◌, ◌+ℤ◌, neg_ℤ, negsuc, pos, [], ◌∷◌, ◌++◌, length, map, unsigned_abs, All, IfOk, OnOk};
ghost use Rattle.relation_core.specs.Systems.{with_row};
ghost use Rattle.relation_core.specs.declared.part_rows.RowKind.TheVariants.{AtLeast};
ghost use Rattle.clay_commands.specs.Drafts.{condition_row as row_in, parts_where, restricted};
ghost use Rattle.scop_core.specs.Printable.{IsDomainPart};

use relation_core::{Part, Relation, RowKind};
use row_core::{Coeff, DenseRow, negated};
use scop_core::Statement;
use std::alloc::Global;
use suite_base::NoMemory;

// The row of an affine value of iterators and parameters, in a part.
#[tactic(auto, using(std::proofs::Common::append_assoc))]
fn condition_row(
    alloc: Global,
    part: &Part,
    iterators: &[Coeff],
    parameters: &[Coeff],
    constant: Coeff,
) -> Result<DenseRow, NoMemory>
    ensures { IfOk result (λ row. row ≡ row_in part.now iterators.now parameters.now constant) }
{
    let mut row = DenseRow::new(alloc);
    row.push_all(iterators)?;
    row.push_zeros(part.shape().locals)?;
    row.push_all(parameters)?;
    row.push(constant)?;
    Ok(row)
}

// The part where the affine value is at least 0.
fn restricted_part(
    alloc: Global,
    part: &Part,
    iterators: &[Coeff],
    parameters: &[Coeff],
    constant: Coeff,
) -> Result<Part, NoMemory>
    requires { IsDomainPart (length iterators.now) (length parameters.now) part.now }
    ensures { IfOk result (λ made. made ≡ with_row part.now AtLeast (row_in part.now iterators.now parameters.now constant)) }
{
    let row = condition_row(alloc, part, iterators, parameters, constant)?;
    let mut made = Part::new(alloc, part.shape());
    made.conjoin(part)?;
    made.push_row(RowKind::AtLeast, row.as_slice())?;
    Ok(made)
}

// Appends a part to a relation.
fn push(relation: &mut Relation, part: Part) -> Result<(), NoMemory>
    ensures { OnOk result (relation.new ≡ relation.old ++ part ∷ []) }
{
    match relation.push_part(part) {
        Ok(()) => Ok(()),
        Err((_, failed)) => Err(failed),
    }
}

// The parts where the affine value is at least 0.
fn restricted_domain(
    alloc: Global,
    domain: &Relation,
    iterators: &[Coeff],
    parameters: &[Coeff],
    constant: Coeff,
) -> Result<Relation, NoMemory>
    requires { All (IsDomainPart (length iterators.now) (length parameters.now)) domain.now }
    ensures { IfOk result (λ made. made ≡ parts_where iterators.now parameters.now constant domain.now) }
{
    let mut made = Relation::new(alloc);
    let parts = domain.parts();
    for part in parts {
        let part = restricted_part(alloc, part, iterators, parameters, constant)?;
        push(&mut made, part)?;
    }
    Ok(made)
}

/// Keeps of a statement where the affine value is at least 0.
pub fn restrict(
    alloc: Global,
    statement: &mut Statement,
    iterators: &[Coeff],
    parameters: &[Coeff],
    constant: Coeff,
) -> Result<(), NoMemory>
    requires { All (IsDomainPart (length iterators.now) (length parameters.now)) statement.old.domain }
    ensures { OnOk result (statement.new ≡ restricted iterators.now parameters.now constant statement.old) }
{
    let domain = restricted_domain(alloc, &statement.domain, iterators, parameters, constant)?;
    statement.domain = domain;
    Ok(())
}

// The negatives of coefficients.
fn negatives(alloc: Global, coeffs: &[Coeff]) -> Result<DenseRow, NoMemory>
    ensures { IfOk result (λ row. row ≡ map neg_ℤ coeffs.now) }
{
    let row = DenseRow::from_coeffs(alloc, coeffs)?;
    negated(alloc, &row)
}

/// A copy of a statement, where the affine value is below 0.
pub fn other_half(
    alloc: Global,
    statement: &Statement,
    iterators: &[Coeff],
    parameters: &[Coeff],
    constant: Coeff,
) -> Result<Statement, NoMemory>
    requires parts { All (IsDomainPart (length iterators.now) (length parameters.now)) statement.now.domain }
    requires range { unsigned_abs constant + 1 < 2 ^ 127 }
    ensures { IfOk result (λ made. made ≡ restricted (map neg_ℤ iterators.now) (map neg_ℤ parameters.now) (neg_ℤ constant +ℤ negsuc 0) statement.now) }
{
    let mut made = statement.copy(alloc)?;
    let iterators = negatives(alloc, iterators)?;
    let parameters = negatives(alloc, parameters)?;
    let constant = Coeff::bounded(-constant.value() - 1);
    restrict(
        alloc,
        &mut made,
        iterators.as_slice(),
        parameters.as_slice(),
        constant,
    )?;
    Ok(made)
}
