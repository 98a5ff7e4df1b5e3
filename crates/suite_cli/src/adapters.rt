//! Standard streams as a source and as sinks, and the system's files: the trusted edge, which tells no
//! bytes.

ghost use Rattle.std.specs.Prelude.{◌≡◌, ℕ, None, false};
ghost use Rattle.std.specs.Option.{is_some};

use std::fs;
use std::io::{Read, Write};
use std::rt::Files as FileSystem;
use suite_base::{Failed, Files, Sink, Source};

/// A reader as a source. It counts each error as a fault, and tells no bytes.
#[derive(Drop)]
pub struct RealInput<R: Read + Drop> {
    reader: R,
    faults: u64,
}

impl<R: Read + Drop> RealInput<R> {
    /// The source of this reader, without faults so far.
    pub fn new(reader: R) -> RealInput<R>
        ensures { ⟦<RealInput<R> as Source>⟧.faults result ≡ 0 }
    {
        RealInput { reader, faults: 0 }
    }
}

impl<R: Read + Drop> Source for RealInput<R> {
    ghost left = { λ _. None };

    ghost faults = { λ s. s.faults };

    fn read(&mut self, buf: &mut [u8]) -> Result<usize, Failed> {
        match self.reader.read(buf) {
            Ok(n) => Ok(n),
            Err(_) => {
                self.faults = self.faults.saturating_add(1);
                Err(Failed)
            }
        }
    }
}

/// A writer as a sink. It counts each error as a fault, and an answer of 0 for a piece that is not
/// empty too; it tells no bytes.
#[derive(Drop)]
pub struct RealOutput<W: Write + Drop> {
    writer: W,
    faults: u64,
}

impl<W: Write + Drop> RealOutput<W> {
    /// The sink of this writer, without faults so far.
    pub fn new(writer: W) -> RealOutput<W>
        ensures { ⟦<RealOutput<W> as Sink>⟧.faults result ≡ 0 }
    {
        RealOutput { writer, faults: 0 }
    }
}

impl<W: Write + Drop> Sink for RealOutput<W> {
    ghost written = { λ _. None };

    ghost faults = { λ s. s.faults };

    fn write(&mut self, piece: &[u8]) -> Result<usize, Failed> {
        match self.writer.write(piece) {
            Ok(n) if n > 0 || piece.is_empty() => Ok(n),
            _ => {
                self.faults = self.faults.saturating_add(1);
                Err(Failed)
            }
        }
    }
}

/// The files of a system, of which one at a time is open. It counts each error as a fault, and tells no
/// bytes and no files. A file is closed where it is let go.
#[derive(Drop)]
pub struct RealFiles<'a, R: FileSystem> {
    system: &'a R,
    opened: Option<R::File>,
    faults: u64,
}

impl<'a, R: FileSystem> RealFiles<'a, R> {
    /// The files of this system, without faults so far, none of them open.
    pub fn new(system: &'a R) -> RealFiles<'a, R>
        ensures fresh { ⟦<RealFiles<'a, R> as Files>⟧.faults result ≡ 0 }
        ensures closed { ⟦<RealFiles<'a, R> as Files>⟧.is_open result ≡ false }
    {
        RealFiles {
            system,
            opened: None,
            faults: 0,
        }
    }
}

impl<'a, R: FileSystem> Files for RealFiles<'a, R> {
    ghost held = { λ _. None };

    ghost left = { λ _. None };

    ghost is_open = { λ s. is_some s.opened };

    ghost faults = { λ s. s.faults };

    fn open(&mut self, name: &str) -> Result<(), Failed> {
        self.opened = None;
        match fs::open(self.system, name) {
            Ok(file) => {
                self.opened = Some(file);
                Ok(())
            }
            Err(_) => {
                self.faults = self.faults.saturating_add(1);
                Err(Failed)
            }
        }
    }

    fn read(&mut self, buf: &mut [u8]) -> Result<usize, Failed> {
        match &mut self.opened {
            Some(file) => match file.read(buf) {
                Ok(n) => Ok(n),
                Err(_) => {
                    self.faults = self.faults.saturating_add(1);
                    Err(Failed)
                }
            },
            None => unreachable!(),
        }
    }

    fn close(&mut self) {
        self.opened = None;
    }
}
