//! Printing a script: one command a line.

ghost use Rattle.std.specs.Prelude.{◌≡◌, ◌++◌, ◌<◌, ◌^◌, unsigned_abs, map, codes, OnOk, IfOk};
ghost use Rattle.std.specs.List.{flat_map};
ghost use Rattle.std.specs.Fmt.{signed_decimal};
ghost use Rattle.clay_script.specs.Names.{letters_of};
ghost use Rattle.clay_script.specs.Commands.{name_of, arguments_of};
ghost use Rattle.clay_script.specs.Layout.{behind_comma, comma_joined, vector_text, argument_text, command_text, layout, FitArguments, FitCommands};
ghost use Rattle.clay_script.specs.Grammar.{IsScript};
ghost use Rattle.row_core.specs.Rows.{AreCoefficients};

use crate::command_names::CommandName;
use crate::commands::{Command, Script};
use crate::vectors::Vector;
use row_core::Coeff;
use std::alloc::Global;
use suite_base::{NoMemory, Text};

/// The printed text of `script`: one command a line, with `, ` between the arguments and between
/// the numbers of a vector.
pub fn print_script(alloc: Global, script: &Script) -> Result<Text, NoMemory>
    ensures layout { IfOk result (λ text. text ≡ layout script.now) }
    ensures read_back { IfOk result (λ text. IsScript text script.now) }
{
    let mut text = Text::new(alloc);
    push_commands(&mut text, script.as_slice())?;
    Ok(text)
}

// Appends the lines of `commands`.
fn push_commands(text: &mut Text, commands: &[Command]) -> Result<(), NoMemory>
    ensures text { OnOk result (text.new ≡ text.old ++ layout commands.now) }
    ensures fits { OnOk result (FitCommands commands.now) }
{
    for command in commands {
        push_command(text, command)?;
    }
    Ok(())
}

// Appends the line of a command.
fn push_command(text: &mut Text, command: &Command) -> Result<(), NoMemory>
    ensures text { OnOk result (text.new ≡ text.old ++ command_text command.now) }
    ensures fits { OnOk result (FitArguments (arguments_of command.now)) }
{
    push_arguments(text, command)?;
    text.push_bytes(b");\n")
}

// Appends the name of a command, `(` and the arguments.
fn push_arguments(text: &mut Text, command: &Command) -> Result<(), NoMemory>
    ensures text { OnOk result (text.new ≡ text.old ++ (letters_of (name_of command.now) ++ codes "(" ++ comma_joined (map argument_text (arguments_of command.now)))) }
    ensures fits { OnOk result (FitArguments (arguments_of command.now)) }
{
    match command {
        Command::Fission(prefix, first) => {
            begin(text, CommandName::Fission, prefix)?;
            push_next_number(text, *first)
        }
        Command::Fuse(prefix) => begin(text, CommandName::Fuse, prefix),
        Command::Reorder(prefix, order) => {
            begin(text, CommandName::Reorder, prefix)?;
            push_next_vector(text, order)
        }
        Command::Interchange(prefix, level, other) => {
            begin(text, CommandName::Interchange, prefix)?;
            push_next_number(text, *level)?;
            push_next_number(text, *other)
        }
        Command::Skew(prefix, level, other, factor) => {
            begin(text, CommandName::Skew, prefix)?;
            push_next_number(text, *level)?;
            push_next_number(text, *other)?;
            push_next_number(text, *factor)
        }
        Command::Shift(prefix, level, parameters, constant) => {
            begin(text, CommandName::Shift, prefix)?;
            push_next_number(text, *level)?;
            push_next_vector(text, parameters)?;
            push_next_number(text, *constant)
        }
        Command::Reverse(prefix, level) => {
            begin(text, CommandName::Reverse, prefix)?;
            push_next_number(text, *level)
        }
        Command::Stripmine(prefix, level, size) => {
            begin(text, CommandName::Stripmine, prefix)?;
            push_next_number(text, *level)?;
            push_next_number(text, *size)
        }
        Command::Tile(prefix, level, size, outer) => {
            begin(text, CommandName::Tile, prefix)?;
            push_next_number(text, *level)?;
            push_next_number(text, *size)?;
            push_next_number(text, *outer)
        }
        Command::Iss(prefix, iterators, parameters, constant) => {
            begin(text, CommandName::Iss, prefix)?;
            push_next_vector(text, iterators)?;
            push_next_vector(text, parameters)?;
            push_next_number(text, *constant)
        }
    }
}

// Appends a command's name, `(` and the first argument.
fn begin(text: &mut Text, name: CommandName, prefix: &Vector) -> Result<(), NoMemory>
    ensures text { OnOk result (text.new ≡ text.old ++ (letters_of name ++ codes "(" ++ vector_text prefix.now)) }
    ensures fits { OnOk result (AreCoefficients prefix.now) }
{
    text.push_bytes(name.letters())?;
    text.push(b'(')?;
    push_vector(text, prefix)
}

// Appends `, ` and a number.
fn push_next_number(text: &mut Text, number: Coeff) -> Result<(), NoMemory>
    ensures text { OnOk result (text.new ≡ text.old ++ behind_comma (signed_decimal number)) }
    ensures fits { OnOk result (unsigned_abs number < 2 ^ 127) }
{
    text.push_bytes(b", ")?;
    text.push_number(number.value())
}

// Appends `, ` and a vector.
fn push_next_vector(text: &mut Text, vector: &Vector) -> Result<(), NoMemory>
    ensures text { OnOk result (text.new ≡ text.old ++ behind_comma (vector_text vector.now)) }
    ensures fits { OnOk result (AreCoefficients vector.now) }
{
    text.push_bytes(b", ")?;
    push_vector(text, vector)
}

// Appends a vector.
fn push_vector(text: &mut Text, vector: &Vector) -> Result<(), NoMemory>
    ensures text { OnOk result (text.new ≡ text.old ++ vector_text vector.now) }
    ensures fits { OnOk result (AreCoefficients vector.now) }
{
    text.push(b'[')?;
    push_numbers(text, vector.as_slice())?;
    text.push(b']')
}

// Appends numbers with `, ` between each two.
fn push_numbers(text: &mut Text, numbers: &[Coeff]) -> Result<(), NoMemory>
    ensures { OnOk result (text.new ≡ text.old ++ comma_joined (map signed_decimal numbers.now)) }
{
    match numbers {
        [] => Ok(()),
        [first, more @ ..] => {
            text.push_number(first.value())?;
            push_more_numbers(text, more)
        }
    }
}

// Appends `, ` and a number for each of `numbers`.
fn push_more_numbers(text: &mut Text, numbers: &[Coeff]) -> Result<(), NoMemory>
    ensures { OnOk result (text.new ≡ text.old ++ flat_map behind_comma (map signed_decimal numbers.now)) }
{
    for number in numbers {
        push_next_number(text, *number)?;
    }
    Ok(())
}
