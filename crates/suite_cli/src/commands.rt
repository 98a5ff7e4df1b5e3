//! What the program's words ask for.

ghost use Rattle.std.specs.Prelude.{◌≡◌, ◌≢◌, ◌↔◌, IsTrue, ◌<◌, ◌∷◌, [], codes, true, false, length, slice_get, Some, None, MatchOption, OnSome};
ghost use Rattle.std.specs.Str.{bytes_eq};
ghost use Rattle.suite_cli.specs.Commands as spec;

use crate::file_words::{is_file_word, is_input};
use crate::loop_counts::loop_count;
use suite_base::WordList;

/// The work that the words ask for. A file is named by its word; `-` is standard input.
#[derive(Clone, Copy, Debug)]
pub enum Work<'a> {
    /// Translates the C region of a file.
    Clan(&'a str),
    /// Prints the SCoP of a file.
    Scop(&'a str),
    /// Prints the SCoP of a file with the block of its dependences.
    Candl(&'a str),
    /// Compares the block of dependences of a file's SCoP with the systems that the SCoP defines.
    Audit(&'a str),
    /// Edits the schedule of a SCoP by a script: the file of the script, and that of the SCoP.
    Clay(&'a str, &'a str),
    /// Finds the script that turns the schedules of an original into those of a target: the files of both.
    Chlore(&'a str, &'a str),
    /// Takes this many loops, from 1 to 32, from C to an edited SCoP and back to a script.
    Demo(u32),
}

impl<'a> Work<'a> {
    /// The word of the file at place `k`, from 0, in the order of the words; `None` exactly where
    /// the work reads no such file. No work reads more than two.
    pub fn file(&self, k: usize) -> Option<&'a str>
        ensures word { let files = spec.files_of (spec.command_of self.now) in
            MatchOption result (slice_get files k ≡ None) (λ file. slice_get files k ≡ Some file.now) }
        ensures few { OnSome result (k < 2) }
    {
        match self {
            Work::Clan(file) => one_file(file, k),
            Work::Scop(file) => one_file(file, k),
            Work::Candl(file) => one_file(file, k),
            Work::Audit(file) => one_file(file, k),
            Work::Clay(script, file) => two_files(script, file, k),
            Work::Chlore(original, target) => two_files(original, target, k),
            Work::Demo(_) => None,
        }
    }
}

/// The word at place `k` of the list of this one word.
fn one_file(file: &str, k: usize) -> Option<&str>
    ensures word { let files = file.now ∷ [] in
        MatchOption result (slice_get files k ≡ None) (λ found. slice_get files k ≡ Some found.now) }
    ensures few { OnSome result (k < 2) }
{
    if k == 0 { Some(file) } else { None }
}

/// The word at place `k` of the list of these two words.
fn two_files<'a>(first: &'a str, second: &'a str, k: usize) -> Option<&'a str>
    ensures word { let files = first.now ∷ (second.now ∷ []) in
        MatchOption result (slice_get files k ≡ None) (λ found. slice_get files k ≡ Some found.now) }
    ensures few { OnSome result (k < 2) }
{
    if k == 0 {
        Some(first)
    } else if k == 1 {
        Some(second)
    } else {
        None
    }
}

/// The work that these words ask for; `None` exactly where they ask for none. No memory is taken.
pub fn read_words(words: &WordList) -> Option<Work<'_>>
    ensures { MatchOption result (spec.IsNoCommand words.now) (λ work. spec.Words words.now (spec.command_of work)) }
{
    match two_words(words) {
        None => pair_work(words),
        Some((command, operand)) => {
            if command == "demo" {
                demo_work(operand)
            } else if is_file_word(operand) {
                named_work(command, operand)
            } else {
                None
            }
        }
    }
}

/// The work of a demo of as many loops as the word says; `None` exactly where it says no number of loops.
fn demo_work<'a>(word: &str) -> Option<Work<'a>>
    ensures { let words = codes "demo" ∷ (word.now ∷ []) in
        MatchOption result (spec.IsNoCommand words) (λ work. spec.Words words (spec.command_of work)) }
{
    match loop_count(word) {
        None => None,
        Some(k) => Some(Work::Demo(k)),
    }
}

/// The work of a command on two files.
fn pair_work(words: &WordList) -> Option<Work<'_>>
    requires { length words.now ≢ 2 }
    ensures { MatchOption result (spec.IsNoCommand words.now) (λ work. spec.Words words.now (spec.command_of work)) }
{
    match three_words(words) {
        None => None,
        Some((command, first, second)) => {
            if are_file_words(first, second) {
                named_pair(command, first, second)
            } else {
                None
            }
        }
    }
}

/// The work of this command on these two files; `None` exactly where it is no command on two files.
fn named_pair<'a>(command: &str, first: &'a str, second: &'a str) -> Option<Work<'a>>
    requires { spec.AreFileWords (first.now ∷ (second.now ∷ [])) }
    ensures { let words = command.now ∷ (first.now ∷ (second.now ∷ [])) in
        MatchOption result (spec.IsNoCommand words) (λ work. spec.Words words (spec.command_of work)) }
{
    if command == "clay" {
        Some(Work::Clay(first, second))
    } else if command == "chlore" {
        Some(Work::Chlore(first, second))
    } else {
        None
    }
}

/// Whether both name files, and not both standard input.
fn are_file_words(first: &str, second: &str) -> bool
    ensures { IsTrue result ↔ spec.AreFileWords (first.now ∷ (second.now ∷ [])) }
{
    is_file_word(first) && is_file_word(second) && !(is_input(first) && is_input(second))
}

/// The words, where they are three.
fn three_words(words: &WordList) -> Option<(&str, &str, &str)>
    ensures { MatchOption result (length words.now ≢ 3) (λ three. words.now ≡ three.0.now ∷ (three.1.now ∷ (three.2.now ∷ []))) }
{
    if words.len() != 3 {
        return None;
    }
    match words.word(0) {
        None => None,
        Some(command) => match words.word(1) {
            None => None,
            Some(first) => match words.word(2) {
                None => None,
                Some(second) => Some((command, first, second)),
            },
        },
    }
}

/// The words, where they are two.
fn two_words(words: &WordList) -> Option<(&str, &str)>
    ensures { MatchOption result (length words.now ≢ 2) (λ two. words.now ≡ two.0.now ∷ (two.1.now ∷ [])) }
{
    if words.len() != 2 {
        return None;
    }
    match words.word(0) {
        None => None,
        Some(command) => match words.word(1) {
            None => None,
            Some(file) => Some((command, file)),
        },
    }
}

/// The work of this command on this file; `None` exactly where it is no command on one file.
fn named_work<'a>(command: &str, file: &'a str) -> Option<Work<'a>>
    requires other { bytes_eq command.now (codes "demo") ≡ false }
    requires file { spec.is_file_word file.now ≡ true }
    ensures { let words = command.now ∷ (file.now ∷ []) in
        MatchOption result (spec.IsNoCommand words) (λ work. spec.Words words (spec.command_of work)) }
{
    if command == "clan" {
        Some(Work::Clan(file))
    } else if command == "scop" {
        Some(Work::Scop(file))
    } else if command == "candl" {
        Some(Work::Candl(file))
    } else if command == "audit" {
        Some(Work::Audit(file))
    } else {
        None
    }
}
