//! A sink that takes few bytes in one call.

use suite_base::{Failed, MemSink, Sink};

/// The most bytes that one call takes.
pub const MOST: usize = 7;

/// A sink that keeps what it takes, at most [`MOST`] bytes in one call.
#[derive(Debug, Drop)]
pub struct ShortSink {
    kept: MemSink,
}

impl ShortSink {
    /// A sink whose calls fail as those of `kept` do.
    pub fn new(kept: MemSink) -> ShortSink {
        ShortSink { kept }
    }

    /// The bytes that were written.
    pub fn bytes(&self) -> &[u8] {
        self.kept.bytes()
    }
}

impl Sink for ShortSink {
    ghost written = { λ s. ⟦<MemSink as Sink>⟧.written s.kept };

    ghost faults = { λ s. ⟦<MemSink as Sink>⟧.faults s.kept };

    fn write(&mut self, piece: &[u8]) -> Result<usize, Failed> {
        let most = piece.len().min(MOST);
        self.kept.write(&piece[..most])
    }
}
