//! Laws of the operations, each as the contract of a function that does nothing.

ghost use Rattle.beta_tree.specs.Laws.{AnswersAreTrees, DenseStays, FissionKeepsOrder, FuseKeepsOrder, FuseUndoesFission, LeafKeepsOrder, LevelKeepsOrder, ReorderUndoesReorder};

/// A fuse of a loop with the loop that a fission made of its children gives the vectors back.
pub fn fuse_undoes_fission()
    ensures { FuseUndoesFission }
{}

/// A reorder by the inverse order gives the vectors back.
pub fn reorder_undoes_reorder()
    ensures { ReorderUndoesReorder }
{}

/// Fission keeps the lexicographic order of any two vectors.
pub fn fission_keeps_order()
    ensures { FissionKeepsOrder }
{}

/// Fuse keeps the lexicographic order of any two vectors of a tree.
pub fn fuse_keeps_order()
    ensures { FuseKeepsOrder }
{}

/// A new level keeps the lexicographic order of any two vectors.
pub fn level_keeps_order()
    ensures { LevelKeepsOrder }
{}

/// Room for a new leaf keeps the lexicographic order of any two vectors.
pub fn leaf_keeps_order()
    ensures { LeafKeepsOrder }
{}

/// What an operation makes of a tree is a tree.
pub fn answers_are_trees()
    ensures { AnswersAreTrees }
{}

/// The dense numbering leaves dense vectors as they are.
pub fn dense_stays()
    ensures { DenseStays }
{}
