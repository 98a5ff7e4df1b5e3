//! Statements: the relations, the body and the extensions.

ghost use Rattle.std.specs.Prelude.{◌≡◌, ◌<◌, [], ◌∷◌, ◌++◌, ◌+◌, length, OnOk, codes};
ghost use Rattle.std.specs.List.{flat_map};
ghost use Rattle.scop_core.specs.Layouts.{number_line, relation_layout, access_layout, body_layout, extension_layout, relations_layout, statement_layout};
ghost use Rattle.scop_core.specs.SolvedRows.{schedule_part};
ghost use Rattle.scop_core.specs.Validity.{HasRelations};

use crate::line_texts::{print_line, print_lines, print_names, print_number_line};
use crate::relation_texts::{print_access, print_relation, print_schedule};
use scop_core::{Body, Extension, Statement};
use std::alloc::Global;
use suite_base::{NoMemory, Text};

// Appends the accesses of a statement over so many parameters.
fn print_accesses(
    alloc: Global,
    text: &mut Text,
    statement: &Statement,
    parameters: usize,
) -> Result<(), NoMemory>
    requires { HasRelations parameters statement.now }
    ensures { OnOk result (text.new ≡ text.old ++ flat_map (access_layout (length statement.now.body.iterators) parameters) statement.now.accesses) }
{
    let iterators = statement.body.iterators.len();
    let accesses = statement.accesses.as_slice();
    for access in accesses {
        print_access(alloc, text, access, iterators, parameters)?;
    }
    Ok(())
}

// Appends the scattering of a statement over so many parameters.
fn print_scattering(
    alloc: Global,
    text: &mut Text,
    statement: &Statement,
    parameters: usize,
) -> Result<(), NoMemory>
    requires { HasRelations parameters statement.now }
    ensures { OnOk result (text.new ≡ text.old ++ relation_layout (codes "SCATTERING") (schedule_part (length statement.now.body.iterators) parameters statement.now.schedule ∷ [])) }
{
    print_schedule(
        alloc,
        text,
        &statement.schedule,
        statement.body.iterators.len(),
        parameters,
    )
}

// Appends the number of relations of a statement.
fn print_relation_count(text: &mut Text, statement: &Statement) -> Result<(), NoMemory>
    ensures { OnOk result (text.new ≡ text.old ++ number_line (length statement.now.accesses + 2)) }
{
    print_number_line(text, statement.accesses.as_slice().len() + 2)
}

// Appends the body as the extension that it is.
fn print_body(text: &mut Text, body: &Body) -> Result<(), NoMemory>
    ensures { OnOk result (text.new ≡ text.old ++ body_layout body.now) }
{
    print_line(text, b"<body>")?;
    print_number_line(text, body.iterators.len())?;
    print_names(text, body.iterators.as_slice())?;
    print_line(text, body.text.bytes())?;
    print_line(text, b"</body>")
}

// Appends one extension.
fn print_extension(text: &mut Text, extension: &Extension) -> Result<(), NoMemory>
    ensures { OnOk result (text.new ≡ text.old ++ extension_layout extension.now) }
{
    text.push(b'<')?;
    text.push_bytes(extension.name.bytes())?;
    text.push_bytes(b">\n")?;
    print_lines(text, extension.lines.as_slice())?;
    text.push_bytes(b"</")?;
    text.push_bytes(extension.name.bytes())?;
    text.push_bytes(b">\n")
}

/// Appends the extensions.
pub fn print_extensions(text: &mut Text, extensions: &[Extension]) -> Result<(), NoMemory>
    ensures { OnOk result (text.new ≡ text.old ++ flat_map extension_layout extensions.now) }
{
    for extension in extensions {
        print_extension(text, extension)?;
    }
    Ok(())
}

// Appends the relations of a statement over so many parameters, and before them their number.
fn print_relations(
    alloc: Global,
    text: &mut Text,
    statement: &Statement,
    parameters: usize,
) -> Result<(), NoMemory>
    requires { HasRelations parameters statement.now }
    ensures { OnOk result (text.new ≡ text.old ++ relations_layout parameters statement.now) }
{
    print_relation_count(text, statement)?;
    print_relation(text, b"DOMAIN", &statement.domain)?;
    print_scattering(alloc, text, statement, parameters)?;
    print_accesses(alloc, text, statement, parameters)?;
    Ok(())
}

/// Appends a statement over so many parameters.
pub fn print_statement(
    alloc: Global,
    text: &mut Text,
    statement: &Statement,
    parameters: usize,
) -> Result<(), NoMemory>
    requires { HasRelations parameters statement.now }
    ensures { OnOk result (text.new ≡ text.old ++ statement_layout parameters statement.now) }
{
    print_relations(alloc, text, statement, parameters)?;
    print_number_line(text, statement.extensions.as_slice().len() + 1)?;
    print_body(text, &statement.body)?;
    print_extensions(text, statement.extensions.as_slice())
}
