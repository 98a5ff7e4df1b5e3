//! Relations: a type word, the number of parts where it is written, the parts.

ghost use Rattle.std.specs.Prelude.{◌≡◌, ◌≤◌, [], ◌∷◌, ◌++◌, OnOk, IfErr};
ghost use Rattle.suite_base.specs.Limits.{max_dimensions};
ghost use Rattle.scop_reader.specs.Reading.{Reads};
ghost use Rattle.scop_reader.specs.Rules as spec;
ghost use Rattle.scop_reader.specs.Headers.{IsSmallRole};

use crate::cursors::{Cursor, bad_line};
use crate::line_rules::{count_line, literal};
use crate::part_rules::{FIRST_ROOM, part};
use crate::roles::Role;
use relation_core::{Part, Relation};
use row_core::Coeff;
use scop_core::AccessKind;
use std::alloc::Global;
use suite_base::{Fail, List, MAX_PARTS, Refusal, Which};

// Takes the line with the number of parts of a relation of statement `k`, which is within its limit.
#[tactic(auto, unfolding(crate::specs::Rules::part_count))]
fn part_count(cursor: &mut Cursor<'_>, k: u32) -> Result<usize, Fail>
    ensures { Reads (spec.part_count k cursor.old) result cursor.new }
{
    let (_line, count) = count_line(cursor, 1)?;
    if count > MAX_PARTS as u128 {
        return Err(Fail::Refused(Refusal::Limit(Which::Parts, k)));
    }
    Ok(count as usize)
}

// Takes the number of parts where it is written; else it is 1.
#[tactic(auto, unfolding(crate::specs::Rules::counted))]
fn counted(cursor: &mut Cursor<'_>, k: u32) -> Result<usize, Fail>
    ensures { Reads (spec.counted k cursor.old) result cursor.new }
{
    if cursor.sees_count() {
        return part_count(cursor, k);
    }
    Ok(1)
}

// The role of the parts behind a first one.
fn role_behind(role: Role, first: &Part) -> Role
    requires { IsSmallRole role }
    ensures value { result ≡ spec.role_behind role first.now }
    ensures small { IsSmallRole result }
{
    match role {
        Role::Domain {
            parameters,
            iterators: None,
        } => Role::Domain {
            parameters,
            iterators: Some(first.shape().outputs),
        },
        _ => role,
    }
}

// Appends a part.
fn push_part(relation: &mut Relation, part: Part) -> Result<(), Fail>
    ensures ok { OnOk result (relation.new ≡ relation.old ++ part ∷ []) }
    ensures err { IfErr result (λ fail. fail ≡ Fail.Memory) }
{
    if relation.push_part(part).is_err() {
        return Err(Fail::Memory);
    }
    Ok(())
}

// Takes so many parts of this role, of statement `k`.
fn parts_of(
    alloc: Global,
    cursor: &mut Cursor<'_>,
    role: Role,
    k: u32,
    count: usize,
    entries: &mut Vec<Coeff>,
) -> Result<Relation, Fail>
    requires { IsSmallRole role }
    ensures { Reads (spec.parts_from role k count [] cursor.old) result cursor.new }
{
    let mut relation = Relation::with_capacity(alloc, count.min(FIRST_ROOM))?;
    let mut role_here = role;
    for _turn in 0..count {
        let next = part(alloc, cursor, role_here, k, entries)?;
        role_here = role_behind(role_here, &next);
        push_part(&mut relation, next)?;
    }
    Ok(relation)
}

// Takes the parts of a relation, behind its type word.
#[tactic(auto, unfolding(crate::specs::Rules::parts))]
fn parts(
    alloc: Global,
    cursor: &mut Cursor<'_>,
    role: Role,
    k: u32,
    entries: &mut Vec<Coeff>,
) -> Result<Relation, Fail>
    requires { IsSmallRole role }
    ensures { Reads (spec.parts role k cursor.old) result cursor.new }
{
    let count = counted(cursor, k)?;
    parts_of(alloc, cursor, role, k, count, entries)
}

// Takes the number of parts of the context, which is 1.
#[tactic(auto, unfolding(crate::specs::Rules::one_part))]
fn one_part(cursor: &mut Cursor<'_>) -> Result<(), Fail>
    ensures { Reads (spec.one_part cursor.old) result cursor.new }
{
    let (line, count) = count_line(cursor, 1)?;
    if count != 1 {
        return Err(bad_line(line.number()));
    }
    Ok(())
}

// Takes the number of parts of the context where it is written.
#[tactic(auto, unfolding(crate::specs::Rules::context_counted))]
fn context_counted(cursor: &mut Cursor<'_>) -> Result<(), Fail>
    ensures { Reads (spec.context_counted cursor.old) result cursor.new }
{
    if cursor.sees_count() {
        return one_part(cursor);
    }
    Ok(())
}

/// Takes the context.
#[tactic(auto, unfolding(crate::specs::Rules::context))]
pub fn context(
    alloc: Global,
    cursor: &mut Cursor<'_>,
    entries: &mut Vec<Coeff>,
) -> Result<Part, Fail>
    ensures { Reads (spec.context cursor.old) result cursor.new }
{
    literal(cursor, b"CONTEXT")?;
    context_counted(cursor)?;
    part(alloc, cursor, Role::Context, 0, entries)
}

/// Takes the domain of statement `k`.
#[tactic(auto, unfolding(crate::specs::Rules::domain))]
pub fn domain(
    alloc: Global,
    cursor: &mut Cursor<'_>,
    parameters: usize,
    k: u32,
    entries: &mut Vec<Coeff>,
) -> Result<Relation, Fail>
    ensures { Reads (spec.domain parameters k cursor.old) result cursor.new }
{
    literal(cursor, b"DOMAIN")?;
    let role = Role::Domain {
        parameters,
        iterators: None,
    };
    parts(alloc, cursor, role, k, entries)
}

/// Takes the scattering of statement `k`.
#[tactic(auto, unfolding(crate::specs::Rules::scattering))]
pub fn scattering(
    alloc: Global,
    cursor: &mut Cursor<'_>,
    parameters: usize,
    iterators: usize,
    k: u32,
    entries: &mut Vec<Coeff>,
) -> Result<Relation, Fail>
    requires { iterators ≤ max_dimensions }
    ensures { Reads (spec.scattering parameters iterators k cursor.old) result cursor.new }
{
    literal(cursor, b"SCATTERING")?;
    let role = Role::Scattering {
        parameters,
        iterators,
    };
    parts(alloc, cursor, role, k, entries)
}

// The kind of access that a type word names.
fn access_kind(word: &[u8]) -> Option<AccessKind>
    ensures { result ≡ spec.access_kind word.now }
{
    if word == b"READ".as_slice() {
        return Some(AccessKind::Read);
    }
    if word == b"WRITE".as_slice() {
        return Some(AccessKind::Write);
    }
    if word == b"MAY_WRITE".as_slice() {
        return Some(AccessKind::MayWrite);
    }
    None
}

// Takes the type word of an access.
#[tactic(auto, unfolding(crate::specs::Rules::kind_line))]
fn kind_line(cursor: &mut Cursor<'_>) -> Result<AccessKind, Fail>
    ensures { Reads (spec.kind_line cursor.old) result cursor.new }
{
    let line = cursor.said_line()?;
    match access_kind(line.content()) {
        Some(kind) => Ok(kind),
        None => Err(bad_line(line.number())),
    }
}

// Takes an access of statement `k`.
#[tactic(auto, unfolding(crate::specs::Rules::access))]
fn access(
    alloc: Global,
    cursor: &mut Cursor<'_>,
    parameters: usize,
    iterators: usize,
    k: u32,
    entries: &mut Vec<Coeff>,
) -> Result<(AccessKind, Relation), Fail>
    requires { iterators ≤ max_dimensions }
    ensures { Reads (spec.access parameters iterators k cursor.old) result cursor.new }
{
    let kind = kind_line(cursor)?;
    let role = Role::Access {
        parameters,
        iterators,
    };
    let found = parts(alloc, cursor, role, k, entries)?;
    Ok((kind, found))
}

/// Takes so many accesses of statement `k`.
pub fn accesses(
    alloc: Global,
    cursor: &mut Cursor<'_>,
    parameters: usize,
    iterators: usize,
    k: u32,
    count: usize,
    entries: &mut Vec<Coeff>,
) -> Result<List<(AccessKind, Relation)>, Fail>
    requires { iterators ≤ max_dimensions }
    ensures { Reads (spec.accesses_from parameters iterators k count [] cursor.old) result cursor.new }
{
    let mut made = List::new(alloc);
    for _turn in 0..count {
        let next = access(alloc, cursor, parameters, iterators, k, entries)?;
        made.push(next)?;
    }
    Ok(made)
}

/// The number of outputs of the first part: for a domain, its iterators.
pub fn outputs_of_first(relation: &Relation) -> usize
    ensures value { result ≡ spec.outputs_of_first relation.now }
    ensures limit { result ≤ max_dimensions }
{
    match relation.parts() {
        [first, ..] => first.shape().outputs,
        [] => 0,
    }
}
