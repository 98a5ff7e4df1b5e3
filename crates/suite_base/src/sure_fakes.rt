//! Source, sink and files that never fail.

ghost use Rattle.std.specs.Prelude.{◌≡◌, ℕ, ◌≤◌, Some, None, false, length, drop};
ghost use Rattle.suite_base.specs.Outside.{bytes_at};

use crate::held_files::HeldFiles;
use crate::lists::List;
use crate::outside::{Failed, Files, Sink, Source};
use crate::texts::Text;

/// A source over bytes that never fails.
#[derive(Debug, Drop)]
pub struct SureSource {
    bytes: Text,
    at: usize,
    ghost within: { at ≤ length bytes },
}

impl SureSource {
    /// A source with all of `bytes` left.
    pub fn new(bytes: Text) -> SureSource
        ensures { ⟦<SureSource as Source>⟧.left result ≡ Some bytes }
    {
        SureSource { bytes, at: 0 }
    }
}

impl Source for SureSource {
    ghost left = { λ s. Some (drop s.at s.bytes) };

    ghost faults = { λ _. 0 };

    fn read(&mut self, buf: &mut [u8]) -> Result<usize, Failed> {
        let left = &self.bytes.bytes()[self.at..];
        let n = left.len().min(buf.len());
        buf[..n].copy_from_slice(&left[..n]);
        self.at += n;
        Ok(n)
    }
}

/// A sink that takes every piece whole, keeps nothing and tells no bytes.
#[derive(Clone, Copy, Debug, PartialEq, Eq)]
pub struct SureSink;

impl SureSink {
    /// A sink.
    pub fn new() -> SureSink {
        SureSink
    }
}

impl Sink for SureSink {
    ghost written = { λ _. None };

    ghost faults = { λ _. 0 };

    fn write(&mut self, piece: &[u8]) -> Result<usize, Failed> {
        Ok(piece.len())
    }
}

/// Files over memory whose calls fail only where `open` is given a name that is not held.
#[derive(Debug, Drop)]
pub struct SureFiles {
    held: HeldFiles,
}

impl SureFiles {
    /// Files by name and bytes, none of them open. Of two files with one name the first is found.
    pub fn new(files: List<(Text, Text)>) -> SureFiles
        ensures held { ⟦<SureFiles as Files>⟧.held result ≡ Some files }
        ensures closed { ⟦<SureFiles as Files>⟧.is_open result ≡ false }
    {
        SureFiles {
            held: HeldFiles::new(files),
        }
    }
}

impl Files for SureFiles {
    ghost held = { λ s. Some s.held.files };

    ghost left = { λ s. Some (drop s.held.at (bytes_at s.held.files s.held.file)) };

    ghost is_open = { λ s. s.held.is_open };

    ghost faults = { λ _. 0 };

    fn open(&mut self, name: &str) -> Result<(), Failed> {
        if self.held.open(name) {
            Ok(())
        } else {
            Err(Failed)
        }
    }

    fn read(&mut self, buf: &mut [u8]) -> Result<usize, Failed> {
        Ok(self.held.read(buf))
    }

    fn close(&mut self) {
        self.held.close();
    }
}
