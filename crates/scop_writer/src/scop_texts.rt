//! The whole text.

ghost use Rattle.std.specs.Prelude.{◌≡◌, ◌<◌, [], ◌∷◌, ◌++◌, length, OnOk, IfOk, codes, drop, ◌+◌};
ghost use Rattle.std.specs.List.{flat_map};
ghost use Rattle.relation_core.specs.Layouts.{part_layout};
ghost use Rattle.scop_core.specs.Layouts.{line, number_line, relation_layout, parameters_layout, array_line, arrays_layout, statement_layout, extension_layout, layout};
ghost use Rattle.scop_core.specs.ScopData.{arrays_of};
ghost use Rattle.scop_core.specs.Validity.{IsValid};

use crate::line_texts::{print_line, print_names, print_number_line};
use crate::statement_texts::{print_extensions, print_statement};
use relation_core::{Part, append_part};
use row_core::Coeff;
use scop_core::Scop;
use std::alloc::Global;
use suite_base::{NoMemory, Text};

// Appends the context.
fn print_context(text: &mut Text, context: &Part) -> Result<(), NoMemory>
    ensures { OnOk result (text.new ≡ text.old ++ relation_layout (codes "CONTEXT") (context.now ∷ [])) }
{
    print_line(text, b"CONTEXT")?;
    append_part(text, context)
}

// Appends the names of the parameters.
fn print_strings(text: &mut Text, names: &[Text]) -> Result<(), NoMemory>
    ensures { OnOk result (text.new ≡ text.old ++ parameters_layout (Some names.now)) }
{
    text.push_bytes(b"1\n<strings>\n")?;
    print_names(text, names)?;
    print_line(text, b"</strings>")?;
    Ok(())
}

// Appends the names of the parameters, where they are present.
fn print_parameters(text: &mut Text, scop: &Scop) -> Result<(), NoMemory>
    ensures { OnOk result (text.new ≡ text.old ++ parameters_layout scop.now.parameters) }
{
    match scop.parameters() {
        None => print_line(text, b"0"),
        Some(names) => print_strings(text, names.as_slice()),
    }
}

// Appends the statements.
fn print_statements(alloc: Global, text: &mut Text, scop: &Scop) -> Result<(), NoMemory>
    ensures { OnOk result (text.new ≡ text.old ++ flat_map (statement_layout scop.now.context.shape.parameters) scop.now.statements) }
{
    let parameters = scop.context().shape().parameters;
    let statements = scop.statements();
    for statement in statements {
        print_statement(alloc, text, statement, parameters)?;
    }
    Ok(())
}

// Appends the line of an array.
fn print_array(text: &mut Text, identifier: Coeff, name: &Text) -> Result<(), NoMemory>
    ensures { OnOk result (text.new ≡ text.old ++ array_line (identifier, name.now)) }
{
    text.push_number(identifier.value())?;
    text.push(b' ')?;
    print_line(text, name.bytes())
}

// Appends the line of array `k`, from 0, of which there is one.
#[tactic(auto, using(crate::proofs::Pieces::next_piece))]
fn print_array_line(text: &mut Text, scop: &Scop, k: usize) -> Result<(), NoMemory>
    requires { k < length (arrays_of scop.now) }
    ensures { OnOk result (text.new ++ flat_map array_line (drop (k + 1) (arrays_of scop.now)) ≡ text.old ++ flat_map array_line (drop k (arrays_of scop.now))) }
{
    match scop.array(k) {
        None => Ok(()),
        Some(array) => {
            print_array(text, array.0, array.1)?;
            Ok(())
        }
    }
}

// Appends the lines of the arrays, which are so many.
fn print_array_lines(text: &mut Text, scop: &Scop, count: usize) -> Result<(), NoMemory>
    requires { count ≡ length (arrays_of scop.now) }
    ensures { OnOk result (text.new ≡ text.old ++ flat_map array_line (arrays_of scop.now)) }
{
    for k in 0..count {
        print_array_line(text, scop, k)?;
    }
    Ok(())
}

// Appends the arrays, where they are present.
fn print_arrays(text: &mut Text, scop: &Scop) -> Result<(), NoMemory>
    ensures { OnOk result (text.new ≡ text.old ++ arrays_layout scop.now.arrays) }
{
    match scop.array_count() {
        None => Ok(()),
        Some(count) => {
            print_line(text, b"<arrays>")?;
            print_number_line(text, count)?;
            print_array_lines(text, scop, count)?;
            print_line(text, b"</arrays>")
        }
    }
}

/// The text of `scop` in the printed layout, as docs/FORMATS.md says.
pub fn print_scop(alloc: Global, scop: &Scop) -> Result<Text, NoMemory>
    ensures { IfOk result (λ text. text ≡ layout scop.now) }
{
    let mut text = Text::new(alloc);
    print_line(&mut text, b"<OpenScop>")?;
    print_line(&mut text, scop.language().bytes())?;
    print_context(&mut text, scop.context())?;
    print_parameters(&mut text, scop)?;
    print_number_line(&mut text, scop.statement_count())?;
    print_statements(alloc, &mut text, scop)?;
    print_arrays(&mut text, scop)?;
    print_extensions(&mut text, scop.extensions().as_slice())?;
    print_line(&mut text, b"</OpenScop>")?;
    Ok(text)
}
