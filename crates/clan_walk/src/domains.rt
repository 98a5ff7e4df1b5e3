//! The domain of a statement: a part for each part of what stands round it.

ghost use Rattle.std.specs.Prelude.{◌≡◌, ◌≤◌, ◌+◌, [], ◌∷◌, ◌++◌, length, map, cond, true, IfOk, OnOk};
ghost use Rattle.suite_base.specs.Limits.{max_locals, max_dimensions};
ghost use Rattle.clan_extract.specs.Scops.{padded, locals_in, local_columns, part_row, part_rows, part};
ghost use Rattle.clan_rows.specs.Contents.{row_of, constraint_of};
ghost use Rattle.clan_walk.specs.Walk.{are_narrow};

use clan_rows::{Constraint, FormRow};
use relation_core::{Part, Relation, Shape};
use row_core::{Coeff, DenseRow};
use std::alloc::Global;
use suite_base::{List, MAX_LOCALS, NoMemory};

// Appends `coeffs`, cut or filled up with zeros to `n`.
fn push_padded(row: &mut DenseRow, n: usize, coeffs: &[Coeff]) -> Result<(), NoMemory>
    ensures { OnOk result (row.new ≡ row.old ++ padded n coeffs.now) }
{
    if coeffs.len() < n {
        row.push_all(coeffs)?;
        row.push_zeros(n - coeffs.len())
    } else {
        row.push_all(&coeffs[..n])
    }
}

// Where a constraint's own local stands: how many stand before it and behind it.
#[derive(Clone, Copy)]
struct LocalPlace {
    before: usize,
    behind: usize,
    has_local: bool,
}

// Appends the coefficients of all locals, with this one at the place.
fn push_locals(row: &mut DenseRow, place: LocalPlace, local: Coeff) -> Result<(), NoMemory>
    requires few { place.before + place.behind ≤ max_dimensions }
    ensures { OnOk result (row.new ≡ row.old ++ local_columns place.before place.behind place.has_local local) }
{
    if place.has_local {
        row.push_zeros(place.before)?;
        row.push(local)?;
        row.push_zeros(place.behind)
    } else {
        row.push_zeros(place.before + place.behind)
    }
}

// Appends a row to a part that has a column for each iterator, local and parameter.
fn push_form_row(
    alloc: Global,
    part: &mut Part,
    place: LocalPlace,
    row: &FormRow,
) -> Result<(), NoMemory>
    requires inputs { part.old.shape.inputs ≡ 0 }
    requires locals { part.old.shape.locals ≡ place.before + place.behind + cond place.has_local 1 0 }
    ensures shape { part.new.shape ≡ part.old.shape }
    ensures rows { OnOk result (part.new.rows ≡ part.old.rows ++ part_row part.old.shape.outputs part.old.shape.parameters (local_columns place.before place.behind place.has_local) (row_of row.now) ∷ []) }
{
    let shape = part.shape();
    let mut entries = DenseRow::new(alloc);
    push_padded(&mut entries, shape.outputs, row.form.iterators.as_slice())?;
    push_locals(&mut entries, place, row.local)?;
    push_padded(
        &mut entries,
        shape.parameters,
        row.form.parameters.as_slice(),
    )?;
    entries.push(row.form.constant)?;
    part.push_row(row.kind, entries.as_slice())
}

// Appends the rows of a constraint.
fn push_constraint(
    alloc: Global,
    part: &mut Part,
    place: LocalPlace,
    rows: &[FormRow],
) -> Result<(), NoMemory>
    requires inputs { part.old.shape.inputs ≡ 0 }
    requires locals { part.old.shape.locals ≡ place.before + place.behind + cond place.has_local 1 0 }
    ensures shape { part.new.shape ≡ part.old.shape }
    ensures rows { OnOk result (part.new.rows ≡ part.old.rows ++ map (part_row part.old.shape.outputs part.old.shape.parameters (local_columns place.before place.behind place.has_local)) (map row_of rows.now)) }
{
    for row in rows {
        push_form_row(alloc, part, place, row)?;
    }
    Ok(())
}

// The number of locals of constraints.
fn count_locals(constraints: &[Constraint]) -> usize
    ensures { result ≡ locals_in (map constraint_of constraints.now) }
{
    let mut count: usize = 0;
    for constraint in constraints {
        if constraint.has_local {
            count += 1;
        }
    }
    count
}

// How many locals a constraint has that has one or none.
fn own_locals(has_local: bool) -> usize
    ensures { result ≡ cond has_local 1 0 }
{
    if has_local { 1 } else { 0 }
}

// Appends the rows of constraints, each with a local of its own or without one.
fn push_constraints(
    alloc: Global,
    part: &mut Part,
    constraints: &[Constraint],
) -> Result<(), NoMemory>
    requires inputs { part.old.shape.inputs ≡ 0 }
    requires locals { part.old.shape.locals ≡ locals_in (map constraint_of constraints.now) }
    ensures shape { part.new.shape ≡ part.old.shape }
    ensures rows { OnOk result (part.new.rows ≡ part.old.rows ++ part_rows part.old.shape.outputs part.old.shape.parameters 0 (map constraint_of constraints.now)) }
{
    let mut before: usize = 0;
    let mut behind = part.shape().locals;
    for constraint in constraints {
        let own = own_locals(constraint.has_local);
        behind -= own;
        let place = LocalPlace {
            before,
            behind,
            has_local: constraint.has_local,
        };
        push_constraint(alloc, part, place, constraint.rows.as_slice())?;
        before += own;
    }
    Ok(())
}

// The part of a domain over so many iterators and parameters.
fn domain_part(
    alloc: Global,
    iterators: usize,
    parameters: usize,
    constraints: &[Constraint],
) -> Result<Part, NoMemory>
    requires iterators { iterators ≤ max_dimensions }
    requires parameters { parameters ≤ max_dimensions }
    requires narrow { locals_in (map constraint_of constraints.now) ≤ max_locals }
    ensures { IfOk result (λ made. made ≡ part iterators parameters (map constraint_of constraints.now)) }
{
    let shape = Shape {
        outputs: iterators,
        inputs: 0,
        locals: count_locals(constraints),
        parameters,
    };
    let mut part = Part::new(alloc, shape);
    push_constraints(alloc, &mut part, constraints)?;
    Ok(part)
}

/// Whether no part has more locals than one may have.
pub fn parts_are_narrow(parts: &[List<Constraint>]) -> bool
    ensures { result ≡ are_narrow (map (λ part. map constraint_of part) parts.now) }
{
    for part in parts {
        if MAX_LOCALS < count_locals(part.as_slice()) {
            return false;
        }
    }
    true
}

// Appends a part.
fn push_part(relation: &mut Relation, part: Part) -> Result<(), NoMemory>
    ensures { OnOk result (relation.new ≡ relation.old ++ part ∷ []) }
{
    match relation.push_part(part) {
        Ok(()) => Ok(()),
        Err((_, failed)) => Err(failed),
    }
}

/// The domain of these parts over so many iterators and parameters, at most 65,536 of each; no part has
/// more locals than one may have.
pub fn domain_of(
    alloc: Global,
    iterators: usize,
    parameters: usize,
    parts: &[List<Constraint>],
) -> Result<Relation, NoMemory>
    requires iterators { iterators ≤ max_dimensions }
    requires parameters { parameters ≤ max_dimensions }
    requires narrow { are_narrow (map (λ part. map constraint_of part) parts.now) ≡ true }
    ensures { IfOk result (λ made. made ≡ map (part iterators parameters) (map (λ part. map constraint_of part) parts.now)) }
{
    let mut domain = Relation::new(alloc);
    for part in parts {
        let made = domain_part(alloc, iterators, parameters, part.as_slice())?;
        push_part(&mut domain, made)?;
    }
    Ok(domain)
}
