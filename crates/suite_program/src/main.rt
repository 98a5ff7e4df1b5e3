//! The program of the suite: it makes the adapters and the list of words, calls `suite`, and ends
//! with the status of its outcome.
#![tactic(auto)]

use std::env;
use std::io::ErrorKind;
use std::process::ExitCode;
use suite_base::{NoMemory, WordList};
use suite_cli::{Outcome, RealFiles, RealInput, RealOutput, status, suite};

fn main(rt: HostRuntime) -> ExitCode {
    let outcome = match program_words(&rt) {
        Err(NoMemory) => Outcome::Memory,
        Ok(words) => {
            let mut files = RealFiles::new(&rt);
            let mut input = RealInput::new(rt.stdin());
            let mut out = RealOutput::new(rt.stdout());
            let mut err = RealOutput::new(rt.stderr());
            suite(
                rt.alloc(),
                &words,
                &mut files,
                &mut input,
                &mut out,
                &mut err,
            )
        }
    };
    ExitCode::from(status(&outcome))
}

/// The words after the program's name; none where one of them is not UTF-8.
fn program_words(rt: &HostRuntime) -> Result<WordList, NoMemory> {
    let mut words = WordList::new(rt.alloc());
    match env::args(rt) {
        Err(error) if error.kind() == ErrorKind::OutOfMemory => return Err(NoMemory),
        Err(_) => {}
        Ok(args) => {
            for arg in args.skip(1) {
                words.push(arg.as_str())?;
            }
        }
    }
    Ok(words)
}
