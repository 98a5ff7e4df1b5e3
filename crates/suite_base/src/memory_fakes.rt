//! Source, sink and files over memory, for tests: each has a list of the numbers of its calls that
//! fail, and tells its bytes.

ghost use Rattle.std.specs.Prelude.{◌≡◌, ◌↔◌, ◌⊎◌, ℕ, ◌<◌, ◌≤◌, Some, [], length, true, false, take, drop, min, IsTrue, IsErr, IfOk, OnOk, OnErr, IfSome, is_err, if◌then◌else◌};
ghost use Rattle.suite_base.specs.Outside.{HasFault, IsMissing, Opened, Took, Wrote, bytes_at, faults_after, one_more};
ghost use Rattle.suite_base.specs.Outside as spec;

use crate::held_files::HeldFiles;
use crate::lists::List;
use crate::outside::{Failed, Files, Sink, Source};
use crate::texts::Text;
use std::alloc::Global;

// Whether the call of this number is one of those that fail.
fn is_listed(fails: &List<u64>, call: u64) -> bool
    ensures { result ≡ spec.is_listed fails.now call }
{
    fails.as_slice().contains(&call)
}

/// A source over bytes. Calls of `read` count from 1; those whose number is listed fail.
#[derive(Debug, Drop)]
pub struct MemSource {
    bytes: Text,
    at: usize,
    calls: u64,
    faults: u64,
    fails: List<u64>,
    ghost within: { at ≤ length bytes },
}

impl MemSource {
    /// A source with all of `bytes` left, whose calls with a number in `fails` fail.
    pub fn new(bytes: Text, fails: List<u64>) -> MemSource
        ensures told { ⟦<MemSource as Source>⟧.left result ≡ Some bytes }
        ensures fresh { ⟦<MemSource as Source>⟧.faults result ≡ 0 }
        ensures calls { result.calls ≡ 0 }
        ensures fails { result.fails ≡ fails }
    {
        MemSource {
            bytes,
            at: 0,
            calls: 0,
            faults: 0,
            fails,
        }
    }
}

impl Source for MemSource {
    ghost left = { λ s. Some (drop s.at s.bytes) };

    ghost faults = { λ s. s.faults };

    fn read(&mut self, buf: &mut [u8]) -> Result<usize, Failed>
        ensures within { IfOk result (λ n. n ≤ length buf.old) }
        ensures took { IfOk result (λ n. Took (⟦<MemSource as Source>⟧.left self.old) (take n buf.new) (⟦<MemSource as Source>⟧.left self.new)) }
        ensures ends { IfOk result (λ n. n ≡ 0 → 0 < length buf.old → IfSome (⟦<MemSource as Source>⟧.left self.old) (λ bytes. bytes ≡ [])) }
        ensures err { OnErr result (⟦<MemSource as Source>⟧.left self.new ≡ ⟦<MemSource as Source>⟧.left self.old) }
        ensures grows { ⟦<MemSource as Source>⟧.faults self.old ≤ ⟦<MemSource as Source>⟧.faults self.new }
        ensures cause { OnErr result (HasFault (⟦<MemSource as Source>⟧.faults self.old) (⟦<MemSource as Source>⟧.faults self.new)) }
        ensures call { self.new.calls ≡ one_more self.old.calls }
        ensures list { self.new.fails ≡ self.old.fails }
        ensures fails { IsErr result ↔ IsTrue (spec.is_listed self.old.fails self.new.calls) }
        ensures counts { ⟦<MemSource as Source>⟧.faults self.new ≡ faults_after self.old.fails self.new.calls (⟦<MemSource as Source>⟧.faults self.old) }
    {
        self.calls = self.calls.saturating_add(1);
        if is_listed(&self.fails, self.calls) {
            self.faults = self.faults.saturating_add(1);
            return Err(Failed);
        }
        let left = &self.bytes.bytes()[self.at..];
        let n = left.len().min(buf.len());
        buf[..n].copy_from_slice(&left[..n]);
        self.at += n;
        Ok(n)
    }
}

/// A sink that keeps what it takes. Calls of `write` count from 1; those whose number is listed fail,
/// and so does one that finds no memory, which is counted in `wants` too.
#[derive(Debug, Drop)]
pub struct MemSink {
    bytes: Text,
    calls: u64,
    faults: u64,
    wants: u64,
    fails: List<u64>,
}

impl MemSink {
    /// A sink with nothing written, whose calls with a number in `fails` fail.
    pub fn new(alloc: Global, fails: List<u64>) -> MemSink
        ensures told { ⟦<MemSink as Sink>⟧.written result ≡ Some [] }
        ensures fresh { ⟦<MemSink as Sink>⟧.faults result ≡ 0 }
        ensures calls { result.calls ≡ 0 }
        ensures fails { result.fails ≡ fails }
    {
        MemSink {
            bytes: Text::new(alloc),
            calls: 0,
            faults: 0,
            wants: 0,
            fails,
        }
    }

    /// The bytes that were written.
    pub fn bytes(&self) -> &[u8]
        ensures { ⟦<MemSink as Sink>⟧.written self.now ≡ Some result.now }
    {
        self.bytes.bytes()
    }
}

impl Sink for MemSink {
    ghost written = { λ s. Some s.bytes };

    ghost faults = { λ s. s.faults };

    fn write(&mut self, piece: &[u8]) -> Result<usize, Failed>
        ensures within { IfOk result (λ n. n ≤ length piece.now) }
        ensures moves { IfOk result (λ n. 0 < length piece.now → 0 < n) }
        ensures wrote { IfOk result (λ n. Wrote (⟦<MemSink as Sink>⟧.written self.old) (take n piece.now) (⟦<MemSink as Sink>⟧.written self.new)) }
        ensures err { OnErr result (⟦<MemSink as Sink>⟧.written self.new ≡ ⟦<MemSink as Sink>⟧.written self.old) }
        ensures grows { ⟦<MemSink as Sink>⟧.faults self.old ≤ ⟦<MemSink as Sink>⟧.faults self.new }
        ensures cause { OnErr result (HasFault (⟦<MemSink as Sink>⟧.faults self.old) (⟦<MemSink as Sink>⟧.faults self.new)) }
        ensures call { self.new.calls ≡ one_more self.old.calls }
        ensures list { self.new.fails ≡ self.old.fails }
        ensures listed { IsTrue (spec.is_listed self.old.fails self.new.calls) → IsErr result }
        ensures others { OnErr result (IsTrue (spec.is_listed self.old.fails self.new.calls) ⊎ (self.new.wants ≡ one_more self.old.wants)) }
        ensures wants { OnOk result (self.new.wants ≡ self.old.wants) }
        ensures counts { ⟦<MemSink as Sink>⟧.faults self.new ≡ (if is_err result then one_more (⟦<MemSink as Sink>⟧.faults self.old) else ⟦<MemSink as Sink>⟧.faults self.old) }
    {
        self.calls = self.calls.saturating_add(1);
        if is_listed(&self.fails, self.calls) {
            self.faults = self.faults.saturating_add(1);
            return Err(Failed);
        }
        if self.bytes.push_bytes(piece).is_err() {
            self.wants = self.wants.saturating_add(1);
            self.faults = self.faults.saturating_add(1);
            return Err(Failed);
        }
        Ok(piece.len())
    }
}

/// Files over memory. Calls of `open` and `read` together count from 1; those whose number is listed
/// fail, and so does an `open` of a name that is not held, which counts as no fault.
#[derive(Debug, Drop)]
pub struct MemFiles {
    held: HeldFiles,
    calls: u64,
    faults: u64,
    fails: List<u64>,
}

impl MemFiles {
    /// Files by name and bytes, none of them open, whose calls with a number in `fails` fail. Of two
    /// files with one name the first is found.
    pub fn new(files: List<(Text, Text)>, fails: List<u64>) -> MemFiles
        ensures held { ⟦<MemFiles as Files>⟧.held result ≡ Some files }
        ensures closed { ⟦<MemFiles as Files>⟧.is_open result ≡ false }
        ensures fresh { ⟦<MemFiles as Files>⟧.faults result ≡ 0 }
        ensures calls { result.calls ≡ 0 }
        ensures fails { result.fails ≡ fails }
    {
        MemFiles {
            held: HeldFiles::new(files),
            calls: 0,
            faults: 0,
            fails,
        }
    }

    // Counts one more call, and says whether it fails.
    fn fails_now(&mut self) -> bool
        ensures held { self.new.held ≡ self.old.held }
        ensures list { self.new.fails ≡ self.old.fails }
        ensures grows { self.old.faults ≤ self.new.faults }
        ensures cause { IsTrue result → HasFault self.old.faults self.new.faults }
        ensures call { self.new.calls ≡ one_more self.old.calls }
        ensures fails { result ≡ spec.is_listed self.old.fails self.new.calls }
        ensures counts { self.new.faults ≡ faults_after self.old.fails self.new.calls self.old.faults }
    {
        self.calls = self.calls.saturating_add(1);
        if is_listed(&self.fails, self.calls) {
            self.faults = self.faults.saturating_add(1);
            return true;
        }
        false
    }
}

impl Files for MemFiles {
    ghost held = { λ s. Some s.held.files };

    ghost left = { λ s. Some (drop s.held.at (bytes_at s.held.files s.held.file)) };

    ghost is_open = { λ s. s.held.is_open };

    ghost faults = { λ s. s.faults };

    fn open(&mut self, name: &str) -> Result<(), Failed>
        ensures ok { OnOk result (Opened (⟦<MemFiles as Files>⟧.held self.old) name.now (⟦<MemFiles as Files>⟧.left self.new)) }
        ensures opened { OnOk result (⟦<MemFiles as Files>⟧.is_open self.new ≡ true) }
        ensures err { OnErr result (⟦<MemFiles as Files>⟧.is_open self.new ≡ false) }
        ensures unread { OnErr result (⟦<MemFiles as Files>⟧.left self.new ≡ ⟦<MemFiles as Files>⟧.left self.old) }
        ensures held { ⟦<MemFiles as Files>⟧.held self.new ≡ ⟦<MemFiles as Files>⟧.held self.old }
        ensures grows { ⟦<MemFiles as Files>⟧.faults self.old ≤ ⟦<MemFiles as Files>⟧.faults self.new }
        ensures cause { OnErr result (HasFault (⟦<MemFiles as Files>⟧.faults self.old) (⟦<MemFiles as Files>⟧.faults self.new) ⊎ IsMissing (⟦<MemFiles as Files>⟧.held self.old) name.now) }
        ensures call { self.new.calls ≡ one_more self.old.calls }
        ensures list { self.new.fails ≡ self.old.fails }
        ensures listed { IsTrue (spec.is_listed self.old.fails self.new.calls) → IsErr result }
        ensures missing { IsMissing (⟦<MemFiles as Files>⟧.held self.old) name.now → IsErr result }
        ensures others { OnErr result (IsTrue (spec.is_listed self.old.fails self.new.calls) ⊎ IsMissing (⟦<MemFiles as Files>⟧.held self.old) name.now) }
        ensures counts { ⟦<MemFiles as Files>⟧.faults self.new ≡ faults_after self.old.fails self.new.calls (⟦<MemFiles as Files>⟧.faults self.old) }
    {
        if self.fails_now() {
            self.held.close();
            return Err(Failed);
        }
        let is_held = self.held.open(name);
        if is_held { Ok(()) } else { Err(Failed) }
    }

    fn read(&mut self, buf: &mut [u8]) -> Result<usize, Failed>
        requires { ⟦<MemFiles as Files>⟧.is_open self.old ≡ true }
        ensures within { IfOk result (λ n. n ≤ length buf.old) }
        ensures took { IfOk result (λ n. Took (⟦<MemFiles as Files>⟧.left self.old) (take n buf.new) (⟦<MemFiles as Files>⟧.left self.new)) }
        ensures ends { IfOk result (λ n. n ≡ 0 → 0 < length buf.old → IfSome (⟦<MemFiles as Files>⟧.left self.old) (λ bytes. bytes ≡ [])) }
        ensures err { OnErr result (⟦<MemFiles as Files>⟧.left self.new ≡ ⟦<MemFiles as Files>⟧.left self.old) }
        ensures stays { ⟦<MemFiles as Files>⟧.is_open self.new ≡ true }
        ensures held { ⟦<MemFiles as Files>⟧.held self.new ≡ ⟦<MemFiles as Files>⟧.held self.old }
        ensures grows { ⟦<MemFiles as Files>⟧.faults self.old ≤ ⟦<MemFiles as Files>⟧.faults self.new }
        ensures cause { OnErr result (HasFault (⟦<MemFiles as Files>⟧.faults self.old) (⟦<MemFiles as Files>⟧.faults self.new)) }
        ensures call { self.new.calls ≡ one_more self.old.calls }
        ensures list { self.new.fails ≡ self.old.fails }
        ensures fails { IsErr result ↔ IsTrue (spec.is_listed self.old.fails self.new.calls) }
        ensures counts { ⟦<MemFiles as Files>⟧.faults self.new ≡ faults_after self.old.fails self.new.calls (⟦<MemFiles as Files>⟧.faults self.old) }
    {
        if self.fails_now() {
            return Err(Failed);
        }
        Ok(self.held.read(buf))
    }

    fn close(&mut self)
        ensures closed { ⟦<MemFiles as Files>⟧.is_open self.new ≡ false }
        ensures unread { ⟦<MemFiles as Files>⟧.left self.new ≡ ⟦<MemFiles as Files>⟧.left self.old }
        ensures held { ⟦<MemFiles as Files>⟧.held self.new ≡ ⟦<MemFiles as Files>⟧.held self.old }
        ensures same { ⟦<MemFiles as Files>⟧.is_open self.old ≡ false → self.new ≡ self.old }
        ensures grows { ⟦<MemFiles as Files>⟧.faults self.old ≤ ⟦<MemFiles as Files>⟧.faults self.new }
        ensures call { self.new.calls ≡ self.old.calls }
        ensures list { self.new.fails ≡ self.old.fails }
        ensures counts { ⟦<MemFiles as Files>⟧.faults self.new ≡ ⟦<MemFiles as Files>⟧.faults self.old }
    {
        self.held.close();
    }
}
