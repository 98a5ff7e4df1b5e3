//! Reading a script: one function for each form of its grammar.

ghost use Rattle.std.specs.Prelude.{◌≡◌, ◌+◌, ◌<◌, ◌≤◌, ◌^◌, List, length, IfOk, IfErr};
ghost use Rattle.suite_base.specs.Limits.{max_commands};
ghost use Rattle.suite_base.specs.declared.refusals.Refusal.{Refusal};
ghost use Rattle.clay_script.specs.declared.commands.Command.{Command};
ghost use Rattle.clay_script.specs.Grammar.{IsScript, FirstFault, Refuses};
ghost use Rattle.clay_script.specs.Lexemes.{lexemes, lexemes_of};
ghost use Rattle.clay_script.specs.Reading.{Gives, Passes, Answers, fault_of, sign_at, number_at, numbers_at, separator_at, with_front, items_at, vector_at, next_number_at, next_vector_at, rest_at, arguments_at, command_at, NextName, name_at, commands_at};
ghost use Rattle.clay_script.specs.declared.tokens.Token.TheVariants.{OpenRound, CloseRound, OpenSquare, Comma, Semicolon};

use crate::command_names::CommandName;
use crate::commands::{Command, Script};
use crate::lexers::Lexer;
use crate::tokens::{Lexeme, Token};
use crate::vectors::Vector;
use row_core::Coeff;
use std::alloc::Global;
use suite_base::{Fail, MAX_COMMANDS, Place, Refusal, Which};

/// Reads a text as a script. The text has fewer than 2^32 - 1 bytes.
///
/// Refuses at the first place at which one of these holds: `NumberTooLarge` at a number outside the
/// range of a coefficient; `BadScript` at a byte that begins no token, at a token with which no
/// script goes on, or at the end of a text that is no script; `Limit(Commands, 0)` at the name of
/// the command after the 4,096th.
pub fn read_script(alloc: Global, bytes: &[u8]) -> Result<Script, Fail>
    requires { length bytes.now + 1 < 2 ^ 32 }
    // What is read is a text of the script.
    ensures found { IfOk result (λ script. IsScript bytes.now script × (length script ≤ max_commands)) }
    // A text of a script is read as it, unless memory runs out.
    ensures only { (script : List Command) → IsScript bytes.now script → length script ≤ max_commands → Answers result (Ok script) }
    // A refusal names the first fault.
    ensures refused { IfErr result (λ fail. Refuses fail (FirstFault max_commands (lexemes_of bytes.now))) }
    // A text with a fault is refused by it, unless memory runs out.
    ensures first { (refusal : Refusal) → FirstFault max_commands (lexemes_of bytes.now) refusal → Answers result (Err refusal) }
{
    let mut lexer = Lexer::new(bytes);
    read_commands(alloc, &mut lexer)
}

// Takes commands to the end of the text.
fn read_commands(alloc: Global, lexer: &mut Lexer<'_>) -> Result<Script, Fail>
    ensures { Answers result (commands_at max_commands (lexemes 0 lexer.old.place lexer.old.rest.now)) }
{
    let mut script = Script::new(alloc);
    while let Some(name) = next_name(lexer)? {
        if script.len() >= MAX_COMMANDS {
            return Err(Fail::Refused(Refusal::Limit(Which::Commands, 0)));
        }
        let command = read_command(alloc, lexer, name)?;
        script.push(command)?;
    }
    Ok(script)
}

// Takes the name of the next command; `None` at the end of the text.
fn next_name(lexer: &mut Lexer<'_>) -> Result<Option<CommandName>, Fail>
    ensures { NextName result (lexemes 0 lexer.new.place lexer.new.rest.now) (name_at (lexemes 0 lexer.old.place lexer.old.rest.now)) }
{
    let Lexeme { token, place } = lexer.next();
    match token {
        Token::End => Ok(None),
        Token::Name(Some(name)) => Ok(Some(name)),
        _ => Err(fault(token, place)),
    }
}

// The refusal for a token that may not stand at its place.
fn fault(token: Token, place: Place) -> Fail
    ensures { result ≡ Fail.Refused (fault_of token place) }
{
    match token {
        Token::TooLarge => Fail::Refused(Refusal::NumberTooLarge(place)),
        _ => Fail::Refused(Refusal::BadScript(place)),
    }
}

// Takes `(`.
fn open_round(lexer: &mut Lexer<'_>) -> Result<(), Fail>
    ensures { Passes result (lexemes 0 lexer.new.place lexer.new.rest.now) (sign_at OpenRound (lexemes 0 lexer.old.place lexer.old.rest.now)) }
{
    let Lexeme { token, place } = lexer.next();
    match token {
        Token::OpenRound => Ok(()),
        _ => Err(fault(token, place)),
    }
}

// Takes `)`.
fn close_round(lexer: &mut Lexer<'_>) -> Result<(), Fail>
    ensures { Passes result (lexemes 0 lexer.new.place lexer.new.rest.now) (sign_at CloseRound (lexemes 0 lexer.old.place lexer.old.rest.now)) }
{
    let Lexeme { token, place } = lexer.next();
    match token {
        Token::CloseRound => Ok(()),
        _ => Err(fault(token, place)),
    }
}

// Takes `;`.
fn semicolon(lexer: &mut Lexer<'_>) -> Result<(), Fail>
    ensures { Passes result (lexemes 0 lexer.new.place lexer.new.rest.now) (sign_at Semicolon (lexemes 0 lexer.old.place lexer.old.rest.now)) }
{
    let Lexeme { token, place } = lexer.next();
    match token {
        Token::Semicolon => Ok(()),
        _ => Err(fault(token, place)),
    }
}

// Takes `,`.
fn comma(lexer: &mut Lexer<'_>) -> Result<(), Fail>
    ensures { Passes result (lexemes 0 lexer.new.place lexer.new.rest.now) (sign_at Comma (lexemes 0 lexer.old.place lexer.old.rest.now)) }
{
    let Lexeme { token, place } = lexer.next();
    match token {
        Token::Comma => Ok(()),
        _ => Err(fault(token, place)),
    }
}

// Takes `[`.
fn open_square(lexer: &mut Lexer<'_>) -> Result<(), Fail>
    ensures { Passes result (lexemes 0 lexer.new.place lexer.new.rest.now) (sign_at OpenSquare (lexemes 0 lexer.old.place lexer.old.rest.now)) }
{
    let Lexeme { token, place } = lexer.next();
    match token {
        Token::OpenSquare => Ok(()),
        _ => Err(fault(token, place)),
    }
}

// Takes a number.
fn read_number(lexer: &mut Lexer<'_>) -> Result<Coeff, Fail>
    ensures { Gives result (lexemes 0 lexer.new.place lexer.new.rest.now) (number_at (lexemes 0 lexer.old.place lexer.old.rest.now)) }
{
    let Lexeme { token, place } = lexer.next();
    match token {
        Token::Number(n) => Ok(n),
        _ => Err(fault(token, place)),
    }
}

// Takes a comma and a number.
#[tactic(auto, unfolding(crate::specs::Reading::next_number_at))]
fn next_number(lexer: &mut Lexer<'_>) -> Result<Coeff, Fail>
    ensures { Gives result (lexemes 0 lexer.new.place lexer.new.rest.now) (next_number_at (lexemes 0 lexer.old.place lexer.old.rest.now)) }
{
    comma(lexer)?;
    read_number(lexer)
}

// Takes a comma and a vector.
#[tactic(auto, unfolding(crate::specs::Reading::next_vector_at))]
fn next_vector(alloc: Global, lexer: &mut Lexer<'_>) -> Result<Vector, Fail>
    ensures { Gives result (lexemes 0 lexer.new.place lexer.new.rest.now) (next_vector_at (lexemes 0 lexer.old.place lexer.old.rest.now)) }
{
    comma(lexer)?;
    read_vector(alloc, lexer)
}

// Takes a vector.
#[tactic(auto, unfolding(crate::specs::Reading::vector_at))]
fn read_vector(alloc: Global, lexer: &mut Lexer<'_>) -> Result<Vector, Fail>
    ensures { Gives result (lexemes 0 lexer.new.place lexer.new.rest.now) (vector_at (lexemes 0 lexer.old.place lexer.old.rest.now)) }
{
    open_square(lexer)?;
    read_items(alloc, lexer)
}

// Takes what follows the `[` of a vector, to its `]`.
fn read_items(alloc: Global, lexer: &mut Lexer<'_>) -> Result<Vector, Fail>
    ensures { Gives result (lexemes 0 lexer.new.place lexer.new.rest.now) (items_at (lexemes 0 lexer.old.place lexer.old.rest.now)) }
{
    let Lexeme { token, place } = lexer.next();
    let mut vector = Vector::new(alloc);
    match token {
        Token::CloseSquare => Ok(vector),
        Token::Number(n) => {
            vector.push(n)?;
            read_more_items(lexer, vector)
        }
        _ => Err(fault(token, place)),
    }
}

// Takes what follows a number of a vector, to its `]`, and answers `vector` with the numbers.
fn read_more_items(lexer: &mut Lexer<'_>, vector: Vector) -> Result<Vector, Fail>
    ensures { Gives result (lexemes 0 lexer.new.place lexer.new.rest.now) (with_front vector (numbers_at (lexemes 0 lexer.old.place lexer.old.rest.now))) }
{
    let mut vector = vector;
    while has_more(lexer)? {
        vector.push(read_number(lexer)?)?;
    }
    Ok(vector)
}

// Takes what follows a number of a vector: true for a comma, false for `]`.
fn has_more(lexer: &mut Lexer<'_>) -> Result<bool, Fail>
    ensures { Gives result (lexemes 0 lexer.new.place lexer.new.rest.now) (separator_at (lexemes 0 lexer.old.place lexer.old.rest.now)) }
{
    let Lexeme { token, place } = lexer.next();
    match token {
        Token::CloseSquare => Ok(false),
        Token::Comma => Ok(true),
        _ => Err(fault(token, place)),
    }
}

// Takes the arguments of the command `name`.
#[tactic(auto, unfolding(crate::specs::Reading::arguments_at))]
fn read_arguments(alloc: Global, lexer: &mut Lexer<'_>, name: CommandName) -> Result<Command, Fail>
    ensures { Gives result (lexemes 0 lexer.new.place lexer.new.rest.now) (arguments_at name (lexemes 0 lexer.old.place lexer.old.rest.now)) }
{
    let prefix = read_vector(alloc, lexer)?;
    match name {
        CommandName::Fission => read_fission(lexer, prefix),
        CommandName::Fuse => Ok(Command::Fuse(prefix)),
        CommandName::Reorder => read_reorder(alloc, lexer, prefix),
        CommandName::Interchange => read_interchange(lexer, prefix),
        CommandName::Skew => read_skew(lexer, prefix),
        CommandName::Shift => read_shift(alloc, lexer, prefix),
        CommandName::Reverse => read_reverse(lexer, prefix),
        CommandName::Stripmine => read_stripmine(lexer, prefix),
        CommandName::Tile => read_tile(lexer, prefix),
        CommandName::Iss => read_iss(alloc, lexer, prefix),
    }
}

// Takes the arguments of a `fission` after its prefix.
fn read_fission(lexer: &mut Lexer<'_>, prefix: Vector) -> Result<Command, Fail>
    ensures { Gives result (lexemes 0 lexer.new.place lexer.new.rest.now) (rest_at CommandName.Fission prefix (lexemes 0 lexer.old.place lexer.old.rest.now)) }
{
    let first = next_number(lexer)?;
    Ok(Command::Fission(prefix, first))
}

// Takes the arguments of a `reorder` after its prefix.
fn read_reorder(alloc: Global, lexer: &mut Lexer<'_>, prefix: Vector) -> Result<Command, Fail>
    ensures { Gives result (lexemes 0 lexer.new.place lexer.new.rest.now) (rest_at CommandName.Reorder prefix (lexemes 0 lexer.old.place lexer.old.rest.now)) }
{
    let order = next_vector(alloc, lexer)?;
    Ok(Command::Reorder(prefix, order))
}

// Takes the arguments of a `interchange` after its prefix.
fn read_interchange(lexer: &mut Lexer<'_>, prefix: Vector) -> Result<Command, Fail>
    ensures { Gives result (lexemes 0 lexer.new.place lexer.new.rest.now) (rest_at CommandName.Interchange prefix (lexemes 0 lexer.old.place lexer.old.rest.now)) }
{
    let level = next_number(lexer)?;
    let other = next_number(lexer)?;
    Ok(Command::Interchange(prefix, level, other))
}

// Takes the arguments of a `skew` after its prefix.
fn read_skew(lexer: &mut Lexer<'_>, prefix: Vector) -> Result<Command, Fail>
    ensures { Gives result (lexemes 0 lexer.new.place lexer.new.rest.now) (rest_at CommandName.Skew prefix (lexemes 0 lexer.old.place lexer.old.rest.now)) }
{
    let level = next_number(lexer)?;
    let other = next_number(lexer)?;
    let factor = next_number(lexer)?;
    Ok(Command::Skew(prefix, level, other, factor))
}

// Takes the arguments of a `shift` after its prefix.
fn read_shift(alloc: Global, lexer: &mut Lexer<'_>, prefix: Vector) -> Result<Command, Fail>
    ensures { Gives result (lexemes 0 lexer.new.place lexer.new.rest.now) (rest_at CommandName.Shift prefix (lexemes 0 lexer.old.place lexer.old.rest.now)) }
{
    let level = next_number(lexer)?;
    let parameters = next_vector(alloc, lexer)?;
    let constant = next_number(lexer)?;
    Ok(Command::Shift(prefix, level, parameters, constant))
}

// Takes the arguments of a `reverse` after its prefix.
fn read_reverse(lexer: &mut Lexer<'_>, prefix: Vector) -> Result<Command, Fail>
    ensures { Gives result (lexemes 0 lexer.new.place lexer.new.rest.now) (rest_at CommandName.Reverse prefix (lexemes 0 lexer.old.place lexer.old.rest.now)) }
{
    let level = next_number(lexer)?;
    Ok(Command::Reverse(prefix, level))
}

// Takes the arguments of a `stripmine` after its prefix.
fn read_stripmine(lexer: &mut Lexer<'_>, prefix: Vector) -> Result<Command, Fail>
    ensures { Gives result (lexemes 0 lexer.new.place lexer.new.rest.now) (rest_at CommandName.Stripmine prefix (lexemes 0 lexer.old.place lexer.old.rest.now)) }
{
    let level = next_number(lexer)?;
    let size = next_number(lexer)?;
    Ok(Command::Stripmine(prefix, level, size))
}

// Takes the arguments of a `tile` after its prefix.
fn read_tile(lexer: &mut Lexer<'_>, prefix: Vector) -> Result<Command, Fail>
    ensures { Gives result (lexemes 0 lexer.new.place lexer.new.rest.now) (rest_at CommandName.Tile prefix (lexemes 0 lexer.old.place lexer.old.rest.now)) }
{
    let level = next_number(lexer)?;
    let size = next_number(lexer)?;
    let outer = next_number(lexer)?;
    Ok(Command::Tile(prefix, level, size, outer))
}

// Takes the arguments of a `iss` after its prefix.
fn read_iss(alloc: Global, lexer: &mut Lexer<'_>, prefix: Vector) -> Result<Command, Fail>
    ensures { Gives result (lexemes 0 lexer.new.place lexer.new.rest.now) (rest_at CommandName.Iss prefix (lexemes 0 lexer.old.place lexer.old.rest.now)) }
{
    let iterators = next_vector(alloc, lexer)?;
    let parameters = next_vector(alloc, lexer)?;
    let constant = next_number(lexer)?;
    Ok(Command::Iss(prefix, iterators, parameters, constant))
}

// Takes what follows the name of a command, to its `;`.
#[tactic(auto, unfolding(crate::specs::Reading::command_at))]
fn read_command(alloc: Global, lexer: &mut Lexer<'_>, name: CommandName) -> Result<Command, Fail>
    ensures { Gives result (lexemes 0 lexer.new.place lexer.new.rest.now) (command_at name (lexemes 0 lexer.old.place lexer.old.rest.now)) }
{
    open_round(lexer)?;
    let command = read_arguments(alloc, lexer, name)?;
    close_round(lexer)?;
    semicolon(lexer)?;
    Ok(command)
}
