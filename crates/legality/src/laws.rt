//! The laws of violation systems, for every edit of a SCoP: functions that do nothing, and whose
//! contracts are the laws.

ghost use Rattle.legality.specs.Edits.{ReversedPairsLieInViolations};
ghost use Rattle.legality.specs.Memories.{AcceptedEditsKeepMemory};

/// In context, a pair of instances that touches, whose originals run in this order and which itself runs
/// in the other one, lies in a violation system.
pub fn reversed_pairs_lie_in_violations()
    ensures { ReversedPairsLieInViolations }
{}

/// Where an edit keeps the instances and none of its violation systems has a rational point, each run of
/// the SCoP in context is joined by a run of the edited one with the same final memory.
pub fn accepted_edits_keep_memory()
    ensures { AcceptedEditsKeepMemory }
{}
