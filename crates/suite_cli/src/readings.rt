//! Reads the files of a command, in the order of their words.

ghost use Rattle.std.specs.Prelude.{◌≡◌, ℕ, ◌≤◌, [], ◌∷◌, ◌++◌, List, true, false, IfOk, IfErr, OnOk};
ghost use Rattle.std.specs.List.{count_by};
ghost use Rattle.suite_cli.specs.Answers as spec;
ghost use Rattle.suite_cli.specs.Commands as command;
ghost use Rattle.suite_cli.specs.Reads as reads;
ghost use Rattle.suite_cli.specs.Worlds.{inputs_of};

use crate::commands::Work;
use crate::file_words::read_named;
use crate::outcomes::Outcome;
use std::alloc::Global;
use suite_base::{Files, List, ReadFail, Refusal, Source, Text};

/// The texts of the files that the work names. It ends at the first file that is not read to its
/// end, and answers the outcome of the run then; no later file is opened.
pub fn read_files<F: Files, I: Source>(
    alloc: Global,
    work: &Work<'_>,
    files: &mut F,
    input: &mut I,
) -> Result<List<Text>, Outcome>
    requires { count_by command.is_input (command.files_of (command.command_of work.now)) ≤ 1 }
    ensures read { let before = inputs_of F.Files I.Source files.old input.old in
        let now = inputs_of F.Files I.Source files.new input.new in
        let named = command.files_of (command.command_of work.now) in
        IfOk result (λ texts. reads.AreRead before now named texts) }
    ensures stopped { let before = inputs_of F.Files I.Source files.old input.old in
        let now = inputs_of F.Files I.Source files.new input.new in
        let named = command.files_of (command.command_of work.now) in
        IfErr result (λ outcome. spec.ReadingAnswers named before now outcome) }
    ensures held { F.held files.new ≡ F.held files.old }
    ensures untouched { let named = command.files_of (command.command_of work.now) in
        command.has_no_name named ≡ true → files.new ≡ files.old }
    ensures unread { let named = command.files_of (command.command_of work.now) in
        command.has_input named ≡ false → input.new ≡ input.old }
{
    let mut texts = List::new(alloc);
    while let Some(file) = work.file(texts.len()) {
        let place = texts.len() as u8 + 1;
        match read_next(alloc, file, &mut texts, files, input) {
            Ok(()) => {}
            Err(fail) => return Err(unread_at(place, fail)),
        }
    }
    Ok(texts)
}

/// Reads what the word names, and appends its text.
fn read_next<F: Files, I: Source>(
    alloc: Global,
    file: &str,
    texts: &mut List<Text>,
    files: &mut F,
    input: &mut I,
) -> Result<(), ReadFail>
    ensures read { let before = inputs_of F.Files I.Source files.old input.old in
        let now = inputs_of F.Files I.Source files.new input.new in
        OnOk result ((text : List ℕ) × (texts.new ≡ texts.old ++ text ∷ [])
        × reads.ReadWhole before now file.now text) }
    ensures cause { let before = inputs_of F.Files I.Source files.old input.old in
        let now = inputs_of F.Files I.Source files.new input.new in
        IfErr result (λ fail. reads.FailCause before now fail file.now) }
    ensures held { F.held files.new ≡ F.held files.old }
    ensures untouched { command.is_input file.now ≡ true → files.new ≡ files.old }
    ensures unread { command.is_input file.now ≡ false → input.new ≡ input.old }
    ensures opening { F.faults files.old ≤ F.faults files.new }
    ensures reading { I.faults input.old ≤ I.faults input.new }
{
    let text = read_named(alloc, file, files, input)?;
    texts.push(text)?;
    Ok(())
}

/// The outcome of a file that was not read to its end; `place` is its place, from 1.
fn unread_at(place: u8, fail: ReadFail) -> Outcome
    ensures { result ≡ spec.unread_at place fail }
{
    match fail {
        ReadFail::Memory => Outcome::Memory,
        ReadFail::Fault => Outcome::ReadFault,
        ReadFail::TooLong => Outcome::Refused {
            file: place,
            refusal: Refusal::TooLong,
        },
    }
}
