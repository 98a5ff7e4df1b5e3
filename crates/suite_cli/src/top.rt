//! The top call.

ghost use Rattle.std.specs.Prelude.{◌≡◌};
ghost use Rattle.suite_cli.specs.Answers as spec;
ghost use Rattle.suite_cli.specs.Commands as command;
ghost use Rattle.suite_cli.specs.Worlds.{output_of, world_of};

use crate::messages::report;
use crate::outcomes::Outcome;
use crate::runs::run;
use std::alloc::Global;
use suite_base::{Files, Sink, Source, WordList};

/// Runs the suite on the program's words: reads the files that they name, in the order of the words,
/// does the work, writes the output to `out`, and for each outcome but `Done` one line to `err`.
///
/// What was appended to `out` at `Done` is, under
/// - `clan`: the layout of the SCoP that the C region in the file is translated to. For all values of the parameters the
///   SCoP has a run whose final memory is the memory after the region.
/// - `scop`: the layout of the SCoP in the file.
/// - `candl`: the same with its block of dependence systems. For all parameter values in the context a pair of instances
///   lies in a kept system exactly where it is a dependence.
/// - `audit`: the line of the counts of the file's block, each entry of which is the one that the SCoP defines.
/// - `clay`: the layout of the SCoP in the second file, edited by the script in the first one. For all parameter values in
///   the context at which the old SCoP has a run, the edited one has one that ends with the same memory.
/// - `chlore`: the layout of the script that gives the statements of the SCoP in the first file the schedules of those in
///   the second one.
/// - `demo`: the summary of a number of loops taken from C to an edited SCoP and back to a script.
///
/// What every other outcome tells is said by `Answers`; want of memory is the one free answer. `files` is as before where
/// no file is named but standard input, and what it holds always is; `input` is as before where standard input is not
/// named.
pub fn suite<F: Files, I: Source, O: Sink, E: Sink>(
    alloc: Global,
    words: &WordList,
    files: &mut F,
    input: &mut I,
    out: &mut O,
    err: &mut E,
) -> Outcome
    ensures answers { let before = world_of F.Files I.Source O.Sink files.old input.old out.old in
        let now = world_of F.Files I.Source O.Sink files.new input.new out.new in
        spec.Answers words.now before now result }
    ensures completes { let before = world_of F.Files I.Source O.Sink files.old input.old out.old in
        let now = world_of F.Files I.Source O.Sink files.new input.new out.new in
        spec.Completes words.now before now result }
    ensures reported { let before = output_of E.Sink err.old in
        let now = output_of E.Sink err.new in
        spec.Reported before now result }
    ensures untouched { command.NameNoFile words.now → files.new ≡ files.old }
    ensures unread { command.NameNoInput words.now → input.new ≡ input.old }
    ensures held { F.held files.new ≡ F.held files.old }
{
    let outcome = run(alloc, words, files, input, out);
    let _unreported = report(&outcome, err);
    outcome
}
