//! Why an operation on beta vectors is refused.

ghost use Rattle.std.specs.Prelude.{◌≡◌};
ghost use Rattle.beta_tree.specs.declared.refusals.BetaFail.TheVariants.{Memory};

use suite_base::NoMemory;

/// The refusals of the operations, in the order in which they are looked for.
#[derive(Clone, Copy, Debug, PartialEq, Eq)]
pub enum BetaFail {
    /// Want of memory, which may come before any other answer.
    Memory,
    /// No vector begins with the prefix; for a fuse also: none begins with its next sibling.
    NoBeta,
    /// The prefix names no loop; for a fuse also: its next sibling is none.
    NotALoop,
    /// The number of a child is out of range, an order is no permutation, or a leaf is wanted and
    /// the prefix names a loop.
    BadArgument,
}

impl From<NoMemory> for BetaFail {
    ghost from_gives = { λ _ fail. fail ≡ Memory };

    fn from(_error: NoMemory) -> BetaFail {
        BetaFail::Memory
    }
}
