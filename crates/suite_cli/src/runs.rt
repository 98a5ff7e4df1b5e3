//! The run of one command, without its message.

ghost use Rattle.std.specs.Prelude.{◌≡◌, ◌≤◌, All, IfOk, IfErr, [], ◌∷◌, length, true, false};
ghost use Rattle.suite_base.specs.Limits.{max_input};
ghost use Rattle.suite_cli.specs.Answers as spec;
ghost use Rattle.suite_cli.specs.AuditPromise as audit_promise;
ghost use Rattle.suite_cli.specs.CandlPromise as candl;
ghost use Rattle.suite_cli.specs.ChlorePromise as chlore;
ghost use Rattle.suite_cli.specs.ClanPromise as clan;
ghost use Rattle.suite_cli.specs.ClayPromise as clay;
ghost use Rattle.suite_cli.specs.Commands as command;
ghost use Rattle.suite_cli.specs.Promises as promise;
ghost use Rattle.suite_cli.specs.ScopPromise as scop;
ghost use Rattle.suite_cli.specs.Worlds.{world_of};

use crate::commands::{Work, read_words};
use crate::outcomes::Outcome;
use crate::readings::read_files;
use crate::recoveries::recovered_text;
use crate::script_runs::edited_text;
use candl_deps::with_dependences;
use demo::demonstrate;
use dependence_audit::{Counts, audit};
use region_extract::region_scop;
use scop_reader::read_scop;
use scop_writer::print_scop;
use std::alloc::Global;
use suite_base::{Fail, Files, NoMemory, Sink, Source, Text, WordList, write_all};

/// Does the work that the words ask for: reads its files, builds the whole output, and writes it.
pub fn run<F: Files, I: Source, O: Sink>(
    alloc: Global,
    words: &WordList,
    files: &mut F,
    input: &mut I,
    out: &mut O,
) -> Outcome
    ensures answers { let before = world_of F.Files I.Source O.Sink files.old input.old out.old in
        let now = world_of F.Files I.Source O.Sink files.new input.new out.new in
        spec.Answers words.now before now result }
    ensures untouched { command.NameNoFile words.now → files.new ≡ files.old }
    ensures unread { command.NameNoInput words.now → input.new ≡ input.old }
    ensures held { F.held files.new ≡ F.held files.old }
{
    match read_words(words) {
        None => Outcome::Usage,
        Some(work) => run_work(alloc, &work, files, input, out),
    }
}

/// Does this work.
fn run_work<F: Files, I: Source, O: Sink>(
    alloc: Global,
    work: &Work<'_>,
    files: &mut F,
    input: &mut I,
    out: &mut O,
) -> Outcome
    requires files { command.AreFileWords (command.files_of (command.command_of work.now)) }
    requires loops { command.HasLoops (command.command_of work.now) }
    ensures answers { let before = world_of F.Files I.Source O.Sink files.old input.old out.old in
        let now = world_of F.Files I.Source O.Sink files.new input.new out.new in
        spec.CommandAnswers (command.command_of work.now) before now result }
    ensures untouched { let named = command.files_of (command.command_of work.now) in
        command.has_no_name named ≡ true → files.new ≡ files.old }
    ensures unread { let named = command.files_of (command.command_of work.now) in
        command.has_input named ≡ false → input.new ≡ input.old }
    ensures held { F.held files.new ≡ F.held files.old }
{
    match read_files(alloc, work, files, input) {
        Err(unread) => unread,
        Ok(texts) => match output_of(alloc, work, texts.as_slice()) {
            Err(refused) => refused,
            Ok(output) => match write_all(out, output.bytes()) {
                Ok(()) => Outcome::Done,
                Err(_) => Outcome::WriteFault,
            },
        },
    }
}

/// The output that the work makes of the texts of its files, or the outcome of the run without it.
fn output_of(alloc: Global, work: &Work<'_>, texts: &[Text]) -> Result<Text, Outcome>
    requires many { length texts.now ≡ length (command.files_of (command.command_of work.now)) }
    requires short { All (λ text. length text ≤ max_input) texts.now }
    requires loops { command.HasLoops (command.command_of work.now) }
    ensures ok { IfOk result (λ output. promise.Makes (command.command_of work.now) texts.now output) }
    ensures err { IfErr result (promise.StopCause (command.command_of work.now) texts.now) }
{
    match work {
        Work::Clan(_) => made_of(1, translated(alloc, only(texts))),
        Work::Scop(_) => made_of(1, printed(alloc, only(texts))),
        Work::Candl(_) => made_of(1, with_block(alloc, only(texts))),
        Work::Audit(_) => made_of(1, audited(alloc, only(texts))),
        Work::Clay(_, _) => of_script(alloc, texts),
        Work::Chlore(_, _) => of_pair(alloc, texts),
        Work::Demo(k) => made_of(0, demonstrate(alloc, *k)),
    }
}

/// The output of `clay` on a script and a SCoP.
fn of_script(alloc: Global, texts: &[Text]) -> Result<Text, Outcome>
    requires two { length texts.now ≡ 2 }
    requires short { All (λ text. length text ≤ max_input) texts.now }
    ensures ok { IfOk result (λ output. promise.OfTwo (λ first second. clay.Makes first second output) texts.now) }
    ensures err { IfErr result (λ outcome. promise.OfTwo (λ first second. clay.IsStop first second outcome) texts.now) }
{
    edited_text(alloc, texts[0].bytes(), texts[1].bytes())
}

/// The output of `chlore` on an original and a target.
fn of_pair(alloc: Global, texts: &[Text]) -> Result<Text, Outcome>
    requires two { length texts.now ≡ 2 }
    requires short { All (λ text. length text ≤ max_input) texts.now }
    ensures ok { IfOk result (λ output. promise.OfTwo (λ first second. chlore.Makes first second output) texts.now) }
    ensures err { IfErr result (λ outcome. promise.OfTwo (λ first second. chlore.IsStop first second outcome) texts.now) }
{
    recovered_text(alloc, texts[0].bytes(), texts[1].bytes())
}

/// The bytes of the one text.
fn only(texts: &[Text]) -> &[u8]
    requires { length texts.now ≡ 1 }
    ensures { texts.now ≡ result.now ∷ [] }
{
    texts[0].bytes()
}

/// The output, or the outcome of a failure of the work on the file at this place, from 1.
fn made_of(file: u8, made: Result<Text, Fail>) -> Result<Text, Outcome>
    ensures { result ≡ promise.made_of file made }
{
    match made {
        Ok(output) => Ok(output),
        Err(Fail::Memory) => Err(Outcome::Memory),
        Err(Fail::Refused(refusal)) => Err(Outcome::Refused { file, refusal }),
    }
}

/// The SCoP of a text's region, as it is printed.
fn translated(alloc: Global, bytes: &[u8]) -> Result<Text, Fail>
    requires short { length bytes.now ≤ max_input }
    ensures ok { IfOk result (λ output. clan.Makes bytes.now output) }
    ensures err { IfErr result (promise.FailCause (clan.Refuses bytes.now)) }
{
    match region_scop(alloc, bytes) {
        Err(Fail::Memory) => Err(Fail::Memory),
        Err(Fail::Refused(refusal)) => Err(Fail::Refused(refusal)),
        Ok(scop) => match print_scop(alloc, &scop) {
            Err(_) => Err(Fail::Memory),
            Ok(output) => Ok(output),
        },
    }
}

/// The SCoP of a text, as it is printed.
fn printed(alloc: Global, bytes: &[u8]) -> Result<Text, Fail>
    requires short { length bytes.now ≤ max_input }
    ensures ok { IfOk result (λ output. scop.Makes bytes.now output) }
    ensures err { IfErr result (promise.FailCause (scop.Refuses bytes.now)) }
{
    match read_scop(alloc, bytes) {
        Err(Fail::Memory) => Err(Fail::Memory),
        Err(Fail::Refused(refusal)) => Err(Fail::Refused(refusal)),
        Ok(scop) => match print_scop(alloc, &scop) {
            Err(_) => Err(Fail::Memory),
            Ok(output) => Ok(output),
        },
    }
}

/// The SCoP of a text with the block of its dependences, as it is printed.
fn with_block(alloc: Global, bytes: &[u8]) -> Result<Text, Fail>
    requires short { length bytes.now ≤ max_input }
    ensures ok { IfOk result (λ output. candl.Makes bytes.now output) }
    ensures err { IfErr result (promise.FailCause (candl.Refuses bytes.now)) }
{
    match read_scop(alloc, bytes) {
        Err(Fail::Memory) => Err(Fail::Memory),
        Err(Fail::Refused(refusal)) => Err(Fail::Refused(refusal)),
        Ok(scop) => match with_dependences(alloc, scop) {
            Err(Fail::Memory) => Err(Fail::Memory),
            Err(Fail::Refused(refusal)) => Err(Fail::Refused(refusal)),
            Ok(made) => match print_scop(alloc, &made) {
                Err(_) => Err(Fail::Memory),
                Ok(output) => Ok(output),
            },
        },
    }
}

/// The line of the counts of a text's block of dependences.
fn audited(alloc: Global, bytes: &[u8]) -> Result<Text, Fail>
    requires short { length bytes.now ≤ max_input }
    ensures ok { IfOk result (λ output. audit_promise.Makes bytes.now output) }
    ensures err { IfErr result (promise.FailCause (audit_promise.Refuses bytes.now)) }
{
    match read_scop(alloc, bytes) {
        Err(Fail::Memory) => Err(Fail::Memory),
        Err(Fail::Refused(refusal)) => Err(Fail::Refused(refusal)),
        Ok(scop) => match audit(alloc, &scop) {
            Err(Fail::Memory) => Err(Fail::Memory),
            Err(Fail::Refused(refusal)) => Err(Fail::Refused(refusal)),
            Ok(counts) => match counts_line(alloc, &counts) {
                Err(_) => Err(Fail::Memory),
                Ok(output) => Ok(output),
            },
        },
    }
}

/// The line of these counts.
fn counts_line(alloc: Global, counts: &Counts) -> Result<Text, NoMemory>
    ensures { IfOk result (λ line. line ≡ audit_promise.counts_line counts.now) }
{
    let mut line = Text::new(alloc);
    line.push_bytes(b"systems ")?;
    line.push_number(counts.systems as i128)?;
    line.push_bytes(b" kept ")?;
    line.push_number(counts.kept as i128)?;
    line.push_bytes(b" dropped ")?;
    line.push_number(counts.dropped as i128)?;
    line.push(b'\n')?;
    Ok(line)
}
