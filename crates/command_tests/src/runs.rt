//! One run of `suite` over objects in memory.

use crate::short_sinks::ShortSink;
use std::alloc::Global;
use suite_base::{List, MemFiles, MemSink, MemSource, NoMemory, Text, WordList};
use suite_cli::{Outcome, suite};

/// The call that fails, by the object that is called and its number, from 1.
#[derive(Clone, Copy, Debug)]
pub enum Fault {
    Nothing,
    Files(u64),
    Input(u64),
    Output(u64),
    /// Every call of the files and of the input, up to the thirtieth.
    Reads,
}

/// How a command is run.
#[derive(Clone, Copy, Debug)]
pub struct Setting {
    /// The file, from 0, that is standard input; the others have names.
    pub piped: Option<usize>,
    /// Whether as many newlines as one read takes stand before the text of the first file.
    pub is_padded: bool,
    /// The call that fails.
    pub fault: Fault,
    /// The write of the message that fails, from 1.
    pub lost: Option<u64>,
}

/// Each file by its name, and no call fails.
pub const PLAIN: Setting = Setting {
    piped: None,
    is_padded: false,
    fault: Fault::Nothing,
    lost: None,
};

/// What a run left behind.
#[derive(Drop)]
pub struct Run {
    pub outcome: Outcome,
    pub out: ShortSink,
    pub err: ShortSink,
}

/// The name of the file at a place of the words.
fn name_of(k: usize) -> &'static str {
    if k == 0 {
        "loops/first"
    } else {
        "loops/second"
    }
}

/// Appends 16,384 newlines, as many bytes as one read takes.
fn pad(text: &mut Text) -> Result<(), NoMemory> {
    for _ in 0..4 {
        text.push_bytes(&[b'\n'; 4096])?;
    }
    Ok(())
}

/// The list of these calls; of none where the first number is above the last one.
fn listed(alloc: Global, first: u64, last: u64) -> Result<List<u64>, NoMemory> {
    let mut calls = List::new(alloc);
    for k in first..=last {
        calls.push(k)?;
    }
    Ok(calls)
}

/// The list of the one call that fails, or of none.
fn one_call(alloc: Global, call: Option<u64>) -> Result<List<u64>, NoMemory> {
    match call {
        None => Ok(List::new(alloc)),
        Some(k) => listed(alloc, k, k),
    }
}

impl Fault {
    fn of_files(self, alloc: Global) -> Result<List<u64>, NoMemory> {
        match self {
            Fault::Files(k) => listed(alloc, k, k),
            Fault::Reads => listed(alloc, 1, 30),
            _ => Ok(List::new(alloc)),
        }
    }

    fn of_input(self, alloc: Global) -> Result<List<u64>, NoMemory> {
        match self {
            Fault::Input(k) => listed(alloc, k, k),
            Fault::Reads => listed(alloc, 1, 30),
            _ => Ok(List::new(alloc)),
        }
    }

    fn of_output(self) -> Option<u64> {
        match self {
            Fault::Output(k) => Some(k),
            _ => None,
        }
    }
}

/// A sink in memory, of which this call fails.
fn sink(alloc: Global, call: Option<u64>) -> Result<ShortSink, NoMemory> {
    Ok(ShortSink::new(MemSink::new(alloc, one_call(alloc, call)?)))
}

/// Runs a command on files with these texts, in the order of its words: first those of the command, then one a file.
pub fn run_suite(
    alloc: Global,
    command: &[&str],
    texts: &[&[u8]],
    setting: Setting,
) -> Result<Run, NoMemory> {
    let mut words = WordList::new(alloc);
    for word in command {
        words.push(word)?;
    }
    let mut named = List::new(alloc);
    let mut input = Text::new(alloc);
    for (k, bytes) in texts.iter().enumerate() {
        let mut text = Text::new(alloc);
        if setting.is_padded && k == 0 {
            pad(&mut text)?;
        }
        text.push_bytes(bytes)?;
        if setting.piped == Some(k) {
            words.push("-")?;
            input = text;
        } else {
            words.push(name_of(k))?;
            named.push((Text::from_bytes(alloc, name_of(k).as_bytes())?, text))?;
        }
    }
    let fault = setting.fault;
    let mut files = MemFiles::new(named, fault.of_files(alloc)?);
    let mut source = MemSource::new(input, fault.of_input(alloc)?);
    let mut out = sink(alloc, fault.of_output())?;
    let mut err = sink(alloc, setting.lost)?;
    let outcome = suite(alloc, &words, &mut files, &mut source, &mut out, &mut err);
    Ok(Run { outcome, out, err })
}
