//! Words that name files: `-` is standard input, another is the name of a file.

ghost use Rattle.std.specs.Prelude.{◌≡◌, ◌≤◌, true, false, IfOk, IfErr};
ghost use Rattle.suite_cli.specs.Commands as spec;
ghost use Rattle.suite_cli.specs.Reads as reads;
ghost use Rattle.suite_cli.specs.Worlds.{inputs_of};

use std::alloc::Global;
use suite_base::{Files, ReadFail, Source, Text, read_all, read_file};

/// Whether the word is `-`.
pub fn is_input(word: &str) -> bool
    ensures { result ≡ spec.is_input word.now }
{
    word == "-"
}

/// Whether the word names a file: it is `-`, or neither empty nor does it begin with `-`.
pub fn is_file_word(word: &str) -> bool
    ensures { result ≡ spec.is_file_word word.now }
{
    if is_input(word) {
        return true;
    }
    match word.as_bytes() {
        [] => false,
        [first, ..] => *first != b'-',
    }
}

/// Reads what the word names to its end: standard input under `-`, else the file of this name.
/// `Fault` comes only by a counted fault of the one that is read, or where the files are told and none
/// has the name; `TooLong` where there are more bytes than [`MAX_INPUT`](suite_base::MAX_INPUT).
pub fn read_named<F: Files, I: Source>(
    alloc: Global,
    file: &str,
    files: &mut F,
    input: &mut I,
) -> Result<Text, ReadFail>
    ensures read { let before = inputs_of F.Files I.Source files.old input.old in
        let now = inputs_of F.Files I.Source files.new input.new in
        IfOk result (λ text. reads.ReadWhole before now file.now text) }
    ensures cause { let before = inputs_of F.Files I.Source files.old input.old in
        let now = inputs_of F.Files I.Source files.new input.new in
        IfErr result (λ fail. reads.FailCause before now fail file.now) }
    ensures held { F.held files.new ≡ F.held files.old }
    ensures untouched { spec.is_input file.now ≡ true → files.new ≡ files.old }
    ensures unread { spec.is_input file.now ≡ false → input.new ≡ input.old }
    ensures opening { F.faults files.old ≤ F.faults files.new }
    ensures reading { I.faults input.old ≤ I.faults input.new }
{
    if is_input(file) {
        read_all(alloc, input)
    } else {
        read_file(alloc, files, file)
    }
}
