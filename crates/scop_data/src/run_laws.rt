//! The laws of runs on which dependences and edits rest, for every SCoP: functions that do nothing, and
//! whose contracts are the laws.

ghost use Rattle.scop_data.specs.MappedRuns.{MappedRunExists, NothingReversedKeepsMemory, StatementsMeanAll, MeaningIsKeptOn};
ghost use Rattle.scop_data.specs.RunLaws.{RunExists, PrecedesIsBefore, SameEventsGiveOneMemory, SameEventsTouch, BeforeByLevels, BeforeIsAtALevel, OneVectorHasAllLoops, LoopsAreCommon, LevelsAreListed, LevelsByEntries, SchedulesOrderAtALevel, DenseKeepsOrder, DenseKeepsLevels, DenseVectorsAreTheirs, KeptMeaningHasSameRuns, DenseKeepsMeaning, DenseKeepsRuns, DenseKeepsSchedulesValid};

/// A run exists where the schedules are valid, a list has exactly the instances as members, and equal
/// stamps come only from equal instances. Nothing is asked of limits.
pub fn run_exists()
    ensures { RunExists }
{}

/// In a run one instance precedes another exactly where both are members and its stamp is before that
/// of the other.
pub fn precedes_is_before()
    ensures { PrecedesIsBefore }
{}

/// The steps of a list of instances, and the steps in another SCoP of instances with the same events,
/// give one memory.
pub fn same_events_give_one_memory()
    ensures { SameEventsGiveOneMemory }
{}

/// Two instances touch exactly where two of another SCoP with the same events do.
pub fn same_events_touch()
    ensures { SameEventsTouch }
{}

/// One stamp is before another exactly where the value of a loop around both statements is less and
/// the values before it are equal, or all values of these loops are equal and the first statement
/// stands before the second one in the text.
pub fn before_by_levels()
    ensures { BeforeByLevels }
{}

/// One stamp is before another exactly where one of the levels between their beta vectors orders them.
pub fn before_is_at_a_level()
    ensures { BeforeIsAtALevel }
{}

/// Between two statements with one beta vector all loops are around both, and the text orders none
/// before the other.
pub fn one_vector_has_all_loops()
    ensures { OneVectorHasAllLoops }
{}

/// The loops around both of two statements are as many from either side, and not more than each has.
pub fn loops_are_common()
    ensures { LoopsAreCommon }
{}

/// The list of the levels between two beta vectors has these levels and nothing else.
pub fn levels_are_listed()
    ensures { LevelsAreListed }
{}

/// Two lists of values are equal up to a place, or less there, exactly where their entries are.
pub fn levels_by_entries()
    ensures { LevelsByEntries }
{}

/// The stamp of one schedule is before that of another exactly where one of the levels between their
/// beta vectors orders the values of their levels.
pub fn schedules_order_at_a_level()
    ensures { SchedulesOrderAtALevel }
{}

/// One stamp is before another exactly where it is with the dense vectors of their betas.
pub fn dense_keeps_order()
    ensures { DenseKeepsOrder }
{}

/// Dense vectors have as many loops around both, and the same order in the text.
pub fn dense_keeps_levels()
    ensures { DenseKeepsLevels }
{}

/// The vectors of the densely numbered SCoP are those of the dense numbering of its vectors.
pub fn dense_vectors_are_theirs()
    ensures { DenseVectorsAreTheirs }
{}

/// Two SCoPs with the same instances and events, and the same order of stamps, have the same runs and
/// conflicts, and the same memory after any list of instances.
pub fn kept_meaning_has_same_runs()
    ensures { KeptMeaningHasSameRuns }
{}

/// The densely numbered SCoP has the instances and events of the SCoP, and the order of their stamps.
pub fn dense_keeps_meaning()
    ensures { DenseKeepsMeaning }
{}

/// A run of the densely numbered SCoP is a run of the SCoP.
pub fn dense_keeps_runs()
    ensures { DenseKeepsRuns }
{}

/// Valid schedules stay valid when they are densely numbered.
pub fn dense_keeps_schedules_valid()
    ensures { DenseKeepsSchedulesValid }
{}

/// Where the instances of one SCoP are those of another that has a run, by a map that keeps events, its
/// schedules are valid and no two of its instances have one stamp, it has a run. Nothing is asked of limits.
pub fn mapped_run_exists()
    ensures { MappedRunExists }
{}

/// Where such a map joins two SCoPs, both have a run, and no two instances that touch are ordered
/// the other way around in the second one, both runs give one memory.
pub fn nothing_reversed_keeps_memory()
    ensures { NothingReversedKeepsMemory }
{}

/// Two SCoPs with the same statements but for their extensions mean the same.
pub fn statements_mean_all()
    ensures { StatementsMeanAll }
{}

/// Where one SCoP keeps the meaning of a second one, and that keeps the meaning of a third one, the
/// first one keeps the meaning of the third one.
pub fn meaning_is_kept_on()
    ensures { MeaningIsKeptOn }
{}
