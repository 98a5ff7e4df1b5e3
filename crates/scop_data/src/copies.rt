//! Copies of the parts of a SCoP, each equal to what it copies.

ghost use Rattle.std.specs.Prelude.{◌≡◌, [], ◌∷◌, ◌++◌, IfOk};
ghost use Rattle.std.specs.Str.{bytes_eq};
ghost use Rattle.scop_data.specs.ScopData.{betas_in, others};

use crate::accesses::Access;
use crate::affines::Affine;
use crate::schedules::{Floor, Schedule};
use crate::statements::{Body, Extension, Statement};
use relation_core::{Part, Relation};
use row_core::Coeff;
use std::alloc::Global;
use suite_base::{List, NoMemory, Text};

/// A copy of a text.
pub fn copied_text(alloc: Global, text: &Text) -> Result<Text, NoMemory>
    ensures { IfOk result (λ made. made ≡ text.now) }
{
    Text::from_bytes(alloc, text.bytes())
}

/// A copy of a list of texts.
pub fn copied_texts(alloc: Global, items: &[Text]) -> Result<List<Text>, NoMemory>
    ensures { IfOk result (λ made. made ≡ items.now) }
{
    let mut made = List::with_capacity(alloc, items.len())?;
    for item in items {
        made.push(copied_text(alloc, item)?)?;
    }
    Ok(made)
}

/// A copy of a list of coefficients.
pub fn copied_coeffs(alloc: Global, items: &[Coeff]) -> Result<List<Coeff>, NoMemory>
    ensures { IfOk result (λ made. made ≡ items.now) }
{
    let mut made = List::with_capacity(alloc, items.len())?;
    for item in items {
        made.push(*item)?;
    }
    Ok(made)
}

/// A copy of a relation.
pub fn copied_relation(alloc: Global, relation: &Relation) -> Result<Relation, NoMemory>
    ensures { IfOk result (λ made. made ≡ relation.now) }
{
    let mut made = Relation::new(alloc);
    let parts = relation.parts();
    for part in parts {
        match made.push_part(part.copy(alloc)?) {
            Ok(()) => {}
            Err((_, failed)) => return Err(failed),
        }
    }
    Ok(made)
}

/// A copy of an affine value.
pub fn copied_affine(alloc: Global, value: &Affine) -> Result<Affine, NoMemory>
    ensures { IfOk result (λ made. made ≡ value.now) }
{
    Affine::new(
        alloc,
        value.iterators(),
        value.floors(),
        value.parameters(),
        value.constant(),
    )
}

/// A copy of a list of affine values.
pub fn copied_affines(alloc: Global, items: &[Affine]) -> Result<List<Affine>, NoMemory>
    ensures { IfOk result (λ made. made ≡ items.now) }
{
    let mut made = List::with_capacity(alloc, items.len())?;
    for item in items {
        made.push(copied_affine(alloc, item)?)?;
    }
    Ok(made)
}

// A copy of a floor.
fn copied_floor(alloc: Global, floor: &Floor) -> Result<Floor, NoMemory>
    ensures { IfOk result (λ made. made ≡ floor.now) }
{
    Ok(Floor {
        value: copied_affine(alloc, &floor.value)?,
        size: floor.size,
    })
}

/// A copy of a list of floors.
pub fn copied_floors(alloc: Global, items: &[Floor]) -> Result<List<Floor>, NoMemory>
    ensures { IfOk result (λ made. made ≡ items.now) }
{
    let mut made = List::with_capacity(alloc, items.len())?;
    for item in items {
        made.push(copied_floor(alloc, item)?)?;
    }
    Ok(made)
}

/// A copy of a schedule.
pub fn copied_schedule(alloc: Global, schedule: &Schedule) -> Result<Schedule, NoMemory>
    ensures { IfOk result (λ made. made ≡ schedule.now) }
{
    Ok(Schedule {
        floors: copied_floors(alloc, schedule.floors.as_slice())?,
        levels: copied_affines(alloc, schedule.levels.as_slice())?,
        betas: copied_coeffs(alloc, schedule.betas.as_slice())?,
    })
}

// A copy of an access.
fn copied_access(alloc: Global, access: &Access) -> Result<Access, NoMemory>
    ensures { IfOk result (λ made. made ≡ access.now) }
{
    Ok(Access {
        kind: access.kind,
        array: access.array,
        subscripts: copied_affines(alloc, access.subscripts.as_slice())?,
    })
}

/// A copy of a list of accesses.
pub fn copied_accesses(alloc: Global, items: &[Access]) -> Result<List<Access>, NoMemory>
    ensures { IfOk result (λ made. made ≡ items.now) }
{
    let mut made = List::with_capacity(alloc, items.len())?;
    for item in items {
        made.push(copied_access(alloc, item)?)?;
    }
    Ok(made)
}

/// A copy of a body.
pub fn copied_body(alloc: Global, body: &Body) -> Result<Body, NoMemory>
    ensures { IfOk result (λ made. made ≡ body.now) }
{
    Ok(Body {
        text: copied_text(alloc, &body.text)?,
        iterators: copied_texts(alloc, body.iterators.as_slice())?,
    })
}

/// A copy of an extension.
pub fn copied_extension(alloc: Global, extension: &Extension) -> Result<Extension, NoMemory>
    ensures { IfOk result (λ made. made ≡ extension.now) }
{
    Ok(Extension {
        name: copied_text(alloc, &extension.name)?,
        lines: copied_texts(alloc, extension.lines.as_slice())?,
    })
}

/// A copy of a list of extensions.
pub fn copied_extensions(alloc: Global, items: &[Extension]) -> Result<List<Extension>, NoMemory>
    ensures { IfOk result (λ made. made ≡ items.now) }
{
    let mut made = List::with_capacity(alloc, items.len())?;
    for item in items {
        made.push(copied_extension(alloc, item)?)?;
    }
    Ok(made)
}

/// A copy of a statement.
pub fn copied_statement(alloc: Global, statement: &Statement) -> Result<Statement, NoMemory>
    ensures { IfOk result (λ made. made ≡ statement.now) }
{
    Ok(Statement {
        domain: copied_relation(alloc, &statement.domain)?,
        schedule: copied_schedule(alloc, &statement.schedule)?,
        accesses: copied_accesses(alloc, statement.accesses.as_slice())?,
        body: copied_body(alloc, &statement.body)?,
        extensions: copied_extensions(alloc, statement.extensions.as_slice())?,
    })
}

/// A copy of a list of statements.
pub fn copied_statements(alloc: Global, items: &[Statement]) -> Result<List<Statement>, NoMemory>
    ensures { IfOk result (λ made. made ≡ items.now) }
{
    let mut made = List::with_capacity(alloc, items.len())?;
    for item in items {
        made.push(copied_statement(alloc, item)?)?;
    }
    Ok(made)
}

/// The beta vectors of statements.
pub fn beta_vectors(alloc: Global, items: &[Statement]) -> Result<List<List<Coeff>>, NoMemory>
    ensures { IfOk result (λ made. made ≡ betas_in items.now) }
{
    let mut made = List::with_capacity(alloc, items.len())?;
    for item in items {
        made.push(copied_coeffs(alloc, item.schedule.betas.as_slice())?)?;
    }
    Ok(made)
}

/// A copy of names, where they are present.
pub fn copied_names(
    alloc: Global,
    names: &Option<List<Text>>,
) -> Result<Option<List<Text>>, NoMemory>
    ensures { IfOk result (λ made. made ≡ names.now) }
{
    match names {
        None => Ok(None),
        Some(names) => Ok(Some(copied_texts(alloc, names.as_slice())?)),
    }
}

// Whether two texts are the same.
fn is_same(a: &[u8], b: &[u8]) -> bool
    ensures { result ≡ bytes_eq a.now b.now }
{
    a == b
}

// Copies of the extensions of another name.
fn other_extensions(
    alloc: Global,
    items: &[Extension],
    name: &[u8],
) -> Result<List<Extension>, NoMemory>
    ensures { IfOk result (λ made. made ≡ others name.now items.now) }
{
    let mut made = List::new(alloc);
    for item in items {
        if !is_same(item.name.bytes(), name) {
            made.push(copied_extension(alloc, item)?)?;
        }
    }
    Ok(made)
}

/// Copies of the extensions of another name, with this one behind them.
pub fn extensions_with(
    alloc: Global,
    items: &[Extension],
    extension: Extension,
) -> Result<List<Extension>, NoMemory>
    ensures { IfOk result (λ made. made ≡ others extension.name items.now ++ extension ∷ []) }
{
    let mut made = other_extensions(alloc, items, extension.name.bytes())?;
    made.push(extension)?;
    Ok(made)
}
