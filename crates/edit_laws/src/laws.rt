//! The laws of edits, for every SCoP and every script of which no condition fails: functions that do
//! nothing, and whose contracts are the laws.

ghost use Rattle.edit_laws.specs.Keeping.{ScriptsKeepInstances, ScriptsKeepRuns, ScriptsKeepSchedulesValid, ScriptsMakeNoTies, UnrefusedScriptsAreFormed};
ghost use Rattle.edit_laws.specs.Stamping.{RunsHaveEditedInstances, ScriptsBringInstances, ScriptsEditValues};

/// The instances of the edited SCoP are those of the old one, each once and with the same events.
pub fn scripts_keep_instances()
    ensures { ScriptsKeepInstances }
{}

/// Where besides the new schedules are valid and the old SCoP has a run, no two instances of the edited
/// one have one stamp.
pub fn scripts_make_no_ties()
    ensures { ScriptsMakeNoTies }
{}

/// No condition fails in a script that is not refused.
pub fn unrefused_scripts_are_formed()
    ensures { UnrefusedScriptsAreFormed }
{}

/// With fewer than 2^32 statements and commands together the new schedules are valid, past the limits too.
pub fn scripts_keep_schedules_valid()
    ensures { ScriptsKeepSchedulesValid }
{}

/// The edited SCoP has a run wherever the old one has, past the limits too; its members are the instances
/// of the edited SCoP, which are the old ones, each once.
pub fn scripts_keep_runs()
    ensures { ScriptsKeepRuns }
{}

/// A script brings each instance to an instance of the edited SCoP that has the edited stamp and comes from
/// it; every new instance is where the script brings the one that it comes from.
pub fn scripts_bring_instances()
    ensures { ScriptsBringInstances }
{}

/// Along a script that splits no statement, the edited values and the edited stamp of a statement are those
/// of its forms at all integers, instances or not.
pub fn scripts_edit_values()
    ensures { ScriptsEditValues }
{}

/// The members of a run of the edited SCoP are the instances where the script brings those of the old one.
pub fn runs_have_edited_instances()
    ensures { RunsHaveEditedInstances }
{}
