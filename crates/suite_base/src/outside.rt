//! What the program reads from and writes to: three traits, each with a count of faults, by which a
//! contract can say that a failure came from outside.

ghost use Rattle.std.specs.Prelude.{◌≡◌, ℕ, ◌<◌, ◌≤◌, ◌⊎◌, Bool, true, false, Option, Some, None, List, [], length, take, IfOk, OnOk, OnErr, IfSome};
ghost use Rattle.suite_base.specs.Outside.{HasFault, IsMissing, Opened, Took, Wrote};

/// A call to the outside that moved nothing, because of a fault.
#[derive(Clone, Copy, Debug, PartialEq, Eq)]
pub struct Failed;

/// Bytes to read. `left` are the bytes that are left, where the source tells them; `faults` is the
/// count of faults, which never falls.
pub trait Source {
    ghost left: { Self → Option (List ℕ) };

    ghost faults: { Self → ℕ };

    /// Moves the first bytes that are left into `buf`, and answers how many. 0 for a buffer that is
    /// not empty is the end of input. `Failed` comes only by a counted fault, and moves nothing.
    fn read(&mut self, buf: &mut [u8]) -> Result<usize, Failed>
        ensures within { IfOk result (λ n. n ≤ length buf.old) }
        ensures took { IfOk result (λ n. Took (left self.old) (take n buf.new) (left self.new)) }
        ensures ends { IfOk result (λ n. n ≡ 0 → 0 < length buf.old → IfSome (left self.old) (λ bytes. bytes ≡ [])) }
        ensures err { OnErr result (left self.new ≡ left self.old) }
        ensures grows { faults self.old ≤ faults self.new }
        ensures cause { OnErr result (HasFault (faults self.old) (faults self.new)) };
}

/// A place to write to. `written` are the bytes that were written, where the sink tells them;
/// `faults` is the count of faults, which never falls.
pub trait Sink {
    ghost written: { Self → Option (List ℕ) };

    ghost faults: { Self → ℕ };

    /// Takes the first bytes of `piece`, and answers how many: at least one where `piece` is not
    /// empty. `Failed` comes only by a counted fault, and takes nothing.
    fn write(&mut self, piece: &[u8]) -> Result<usize, Failed>
        ensures within { IfOk result (λ n. n ≤ length piece.now) }
        ensures moves { IfOk result (λ n. 0 < length piece.now → 0 < n) }
        ensures wrote { IfOk result (λ n. Wrote (written self.old) (take n piece.now) (written self.new)) }
        ensures err { OnErr result (written self.new ≡ written self.old) }
        ensures grows { faults self.old ≤ faults self.new }
        ensures cause { OnErr result (HasFault (faults self.old) (faults self.new)) };
}

/// Files by their names, of which one at a time is open. `held` are the names with the bytes under
/// them, where the files are told; `left` are the bytes left of the open file, where they are told;
/// `faults` is the count of faults, which never falls.
pub trait Files {
    ghost held: { Self → Option (List (List ℕ × List ℕ)) };

    ghost left: { Self → Option (List ℕ) };

    ghost is_open: { Self → Bool };

    ghost faults: { Self → ℕ };

    /// Opens the file `name` at its first byte, and gives up a file that was open. `Failed` comes by a
    /// counted fault, or where no file of this name is held; no file is open then, and none was read.
    fn open(&mut self, name: &str) -> Result<(), Failed>
        ensures ok { OnOk result (Opened (held self.old) name.now (left self.new)) }
        ensures opened { OnOk result (is_open self.new ≡ true) }
        ensures err { OnErr result (is_open self.new ≡ false) }
        ensures unread { OnErr result (left self.new ≡ left self.old) }
        ensures held { held self.new ≡ held self.old }
        ensures grows { faults self.old ≤ faults self.new }
        ensures cause { OnErr result (HasFault (faults self.old) (faults self.new) ⊎ IsMissing (held self.old) name.now) };

    /// As a source's `read`, of the open file, which stays open.
    fn read(&mut self, buf: &mut [u8]) -> Result<usize, Failed>
        requires { is_open self.old ≡ true }
        ensures within { IfOk result (λ n. n ≤ length buf.old) }
        ensures took { IfOk result (λ n. Took (left self.old) (take n buf.new) (left self.new)) }
        ensures ends { IfOk result (λ n. n ≡ 0 → 0 < length buf.old → IfSome (left self.old) (λ bytes. bytes ≡ [])) }
        ensures err { OnErr result (left self.new ≡ left self.old) }
        ensures stays { is_open self.new ≡ true }
        ensures held { held self.new ≡ held self.old }
        ensures grows { faults self.old ≤ faults self.new }
        ensures cause { OnErr result (HasFault (faults self.old) (faults self.new)) };

    /// Closes the open file, of which nothing more is read. With no file open it does nothing.
    fn close(&mut self)
        ensures closed { is_open self.new ≡ false }
        ensures unread { left self.new ≡ left self.old }
        ensures held { held self.new ≡ held self.old }
        ensures same { is_open self.old ≡ false → self.new ≡ self.old }
        ensures grows { faults self.old ≤ faults self.new };
}
