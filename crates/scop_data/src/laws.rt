//! The laws of stamps, runs and memories, for every SCoP: functions that do nothing, and whose
//! contracts are the laws.

ghost use Rattle.scop_data.specs.Theorems.{FloorIsGreatest, BeforeIsTransitive, BeforeIsIrreflexive, StampsAreOrdered, StatementsAreOrdered, RunIsUnique, StepsCommute, ReorderingKeepsMemory, RunHasNoTies, KeptConflictsKeepMemory};

/// The value of a floor is the greatest integer not above its quotient, for negative ones too.
pub fn floor_is_greatest()
    ensures { FloorIsGreatest }
{}

/// The order of stamps is transitive.
pub fn before_is_transitive()
    ensures { BeforeIsTransitive }
{}

/// No stamp is before itself.
pub fn before_is_irreflexive()
    ensures { BeforeIsIrreflexive }
{}

/// Where the schedules are valid, of two instances one is before the other, or they have one stamp.
pub fn stamps_are_ordered()
    ensures { StampsAreOrdered }
{}

/// Where the schedules are valid, of two instances of different statements one is before the other.
pub fn statements_are_ordered()
    ensures { StatementsAreOrdered }
{}

/// A SCoP has at most one run at given parameter values.
pub fn run_is_unique()
    ensures { RunIsUnique }
{}

/// Steps of instances that do not touch commute.
pub fn steps_commute()
    ensures { StepsCommute }
{}

/// Two orders of the same instances in which those that touch keep their order give one memory.
pub fn reordering_keeps_memory()
    ensures { ReorderingKeepsMemory }
{}

/// Where there is a run, no two instances have one stamp.
pub fn run_has_no_ties()
    ensures { RunHasNoTies }
{}

/// An order of the instances of a run that keeps the order of every conflict gives the run's memory.
pub fn kept_conflicts_keep_memory()
    ensures { KeptConflictsKeepMemory }
{}
