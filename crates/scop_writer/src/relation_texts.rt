//! Relations: the type word, the number of parts and the parts.

ghost use Rattle.std.specs.Prelude.{◌≡◌, ◌<◌, [], ◌∷◌, ◌++◌, length, OnOk, codes};
ghost use Rattle.std.specs.List.{flat_map};
ghost use Rattle.relation_core.specs.Layouts.{part_layout};
ghost use Rattle.scop_core.specs.Layouts.{relation_layout, parts_line, access_word, access_layout};
ghost use Rattle.scop_core.specs.SolvedRows.{schedule_part, HasRelation, HasAccessRelation};

use crate::line_texts::{print_line, print_number_line};
use relation_core::{Relation, append_part};
use scop_core::{Access, AccessKind, Schedule};
use std::alloc::Global;
use suite_base::{NoMemory, Text};

// Appends the number of parts as a line, where it is at least 2.
fn print_part_count(text: &mut Text, parts: usize) -> Result<(), NoMemory>
    ensures { OnOk result (text.new ≡ text.old ++ parts_line parts) }
{
    if parts >= 2 {
        return print_number_line(text, parts);
    }
    Ok(())
}

// Appends the parts of `relation`.
fn print_parts(text: &mut Text, relation: &Relation) -> Result<(), NoMemory>
    ensures { OnOk result (text.new ≡ text.old ++ flat_map part_layout relation.now) }
{
    for part in relation.parts() {
        append_part(text, part)?;
    }
    Ok(())
}

/// Appends `relation` under this type word.
pub fn print_relation(text: &mut Text, word: &[u8], relation: &Relation) -> Result<(), NoMemory>
    ensures { OnOk result (text.new ≡ text.old ++ relation_layout word.now relation.now) }
{
    print_line(text, word)?;
    print_part_count(text, relation.len())?;
    print_parts(text, relation)
}

// The type word of an access.
fn word_of(kind: AccessKind) -> &'static [u8]
    ensures { result.now ≡ access_word kind }
{
    match kind {
        AccessKind::Read => b"READ",
        AccessKind::Write => b"WRITE",
        AccessKind::MayWrite => b"MAY_WRITE",
    }
}

/// Appends `access` over so many iterators and parameters.
pub fn print_access(
    alloc: Global,
    text: &mut Text,
    access: &Access,
    iterators: usize,
    parameters: usize,
) -> Result<(), NoMemory>
    requires { HasAccessRelation iterators parameters access.now }
    ensures { OnOk result (text.new ≡ text.old ++ access_layout iterators parameters access.now) }
{
    let relation = access.relation(alloc, iterators, parameters)?;
    print_relation(text, word_of(access.kind), &relation)
}

/// Appends the scattering that `schedule` is over so many iterators and parameters.
pub fn print_schedule(
    alloc: Global,
    text: &mut Text,
    schedule: &Schedule,
    iterators: usize,
    parameters: usize,
) -> Result<(), NoMemory>
    requires { HasRelation iterators parameters schedule.now }
    ensures { OnOk result (text.new ≡ text.old ++ relation_layout (codes "SCATTERING") (schedule_part iterators parameters schedule.now ∷ [])) }
{
    let relation = schedule.relation(alloc, iterators, parameters)?;
    print_relation(text, b"SCATTERING", &relation)
}
