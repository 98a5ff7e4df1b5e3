//! The laws of kept and dropped systems: functions that do nothing, and whose contracts are the laws.

ghost use Rattle.dependence_blocks.specs.Conflicts.{KeptSystemsHoldConflicts};

/// Where no dropped system of a SCoP has a rational point, a pair of instances lies in a kept one exactly
/// where it conflicts, for all parameter values in context.
pub fn kept_systems_hold_conflicts()
    ensures { KeptSystemsHoldConflicts }
{}
