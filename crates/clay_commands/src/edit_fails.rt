//! What keeps an edit of a statement from its answer.

ghost use Rattle.clay_commands.specs.declared.edit_fails.EditFail.TheVariants.{Memory};
ghost use Rattle.std.specs.Prelude.{◌≡◌};

use suite_base::NoMemory;

/// What keeps an edit of a statement from its answer.
#[derive(Clone, Copy, Debug, PartialEq, Eq)]
pub enum EditFail {
    Memory,
    /// The absolute values of two summands sum above 2^127 - 1.
    Heavy,
}

impl From<NoMemory> for EditFail {
    ghost from_gives = { λ _ fail. fail ≡ Memory };

    fn from(_error: NoMemory) -> EditFail {
        EditFail::Memory
    }
}
