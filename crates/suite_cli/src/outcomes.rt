//! How a run of the program can end.

ghost use Rattle.std.specs.Prelude.{◌≡◌};
ghost use Rattle.suite_cli.specs.Messages as spec;

use suite_base::Refusal;

/// The outcome of a run. A refusal has the place of the refused file among the file words, from 1, or
/// 0 where it speaks of none.
#[derive(Clone, Copy, Debug, PartialEq, Eq)]
pub enum Outcome {
    /// The whole output was written.
    Done,
    /// An input was refused; nothing was written.
    Refused { file: u8, refusal: Refusal },
    /// The words are no command; nothing was read or written.
    Usage,
    /// An input could not be read; nothing was written.
    ReadFault,
    /// The output could not be written to its end.
    WriteFault,
    /// Memory was wanting; nothing was written.
    Memory,
}

/// The status with which the program ends.
pub fn status(outcome: &Outcome) -> u8
    ensures { result ≡ spec.status_of outcome.now }
{
    match outcome {
        Outcome::Done => 0,
        Outcome::Refused { .. } => 1,
        Outcome::Usage => 2,
        Outcome::ReadFault => 3,
        Outcome::WriteFault => 4,
        Outcome::Memory => 5,
    }
}
