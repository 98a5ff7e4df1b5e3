//! The laws of dependence systems, for every SCoP: functions that do nothing, and whose contracts are
//! the laws.

ghost use Rattle.dependence_systems.specs.Originals.{OriginalsAreOwn, SystemsHoldConflicts, SystemsHoldOldConflicts};
ghost use Rattle.dependence_systems.specs.Pairs.{SystemsHoldOrderedPairs};

/// For sides of any fitting schedules and parameter values in context, a pair of instances lies in a
/// system of the list exactly where both are in their domains, they touch, and the schedules order
/// them so.
pub fn systems_hold_ordered_pairs()
    ensures { SystemsHoldOrderedPairs }
{}

/// For statements under the schedules of their originals and parameter values in context, a pair lies
/// in a system exactly where both are instances, they touch, and the old stamp of the first one is
/// before that of the second one.
pub fn pairs()
    ensures { SystemsHoldOldConflicts }
{}

/// For one SCoP and parameter values in context, a pair lies in a system exactly where it conflicts.
pub fn conflicts()
    ensures { SystemsHoldConflicts }
{}

/// With one SCoP as the old and the new one, and each statement as its own original, the statements
/// stand under their own schedules.
pub fn originals_are_own()
    ensures { OriginalsAreOwn }
{}
