//! The laws of the lengths of vectors and of the sizes of their entries, each as the contract of a
//! function that does nothing.

ghost use Rattle.beta_tree.specs.Lengths.{EntriesAreFew, LeafIsOne, LevelAddsOne, OperationsKeepLengths, SiblingIsAsLong};

/// Fission, fuse, reorder and the room for a new leaf keep the length of each vector.
pub fn operations_keep_lengths()
    ensures { OperationsKeepLengths }
{}

/// A new level makes each vector under its prefix longer by one.
pub fn level_adds_one()
    ensures { LevelAddsOne }
{}

/// The sibling right after a vector that is not empty is as long.
pub fn sibling_is_as_long()
    ensures { SiblingIsAsLong }
{}

/// Each entry of a tree's vectors is below their number.
pub fn entries_are_few()
    ensures { EntriesAreFew }
{}

/// In a tree exactly one vector equals a leaf.
pub fn leaf_is_one()
    ensures { LeafIsOne }
{}
