//! Laws of recoverable levels, each as the contract of a function that does nothing.

ghost use Rattle.chlore_recover.specs.Drafted.{AllLevelsAreLed, LeavesAreLed, LevelScriptIsTaken, LevelsAreLed};
ghost use Rattle.chlore_recover.specs.Orders.{OrderedRises};
ghost use Rattle.chlore_recover.specs.Passes.{FissionsAreRead};
ghost use Rattle.chlore_recover.specs.Recovered.{StrategyRecovers};
ghost use Rattle.chlore_recover.specs.Refusals.{UnrefusedCanRecover};
ghost use Rattle.chlore_recover.specs.Splits.{FissionsLead, FusesLead, LeastIsFirst, ReorderLeads, SplitsLeaveAlone};
ghost use Rattle.chlore_recover.specs.Laws.{ApartIsFactored, FactoredIsApart, ScriptRecoversLevels, SuitedIsUnrefused};

/// Rows whose last coefficients are signs at places that differ are a signed permutation times a unit lower triangle.
pub fn apart_is_factored()
    ensures { ApartIsFactored }
{}

/// Such a product has such rows, and both factors are determined.
pub fn factored_is_apart()
    ensures { FactoredIsApart }
{}

/// The script for one statement's levels runs from Clan's form to the target's levels; no command is refused.
pub fn script_recovers_levels()
    ensures { ScriptRecoversLevels }
{}

/// A command that suits the levels of each statement under its prefix is not refused.
pub fn suited_is_unrefused()
    ensures { SuitedIsUnrefused }
{}

/// The least loop with two children that the script's first step looks for is the one at the first boundary of its length.
pub fn least_is_first()
    ensures { LeastIsFirst }
{}

/// The script's first step is accepted fission by fission, and leaves each statement alone in its loop.
pub fn splits_leave_alone()
    ensures { SplitsLeaveAlone }
{}

/// The script's last step is accepted fuse by fuse, and leads from statements that stand alone to the target's vectors.
pub fn fuses_lead()
    ensures { FusesLead }
{}

/// The fissions, as commands, are accepted one by one, and leave each statement alone in its loop.
pub fn fissions_lead()
    ensures { FissionsLead }
{}

/// The reorder is accepted, and gives each statement its rank's place in the order; none is needed where that is its rank.
pub fn reorder_leads()
    ensures { ReorderLeads }
{}

/// Commands on vectors alone that lead from a tree are accepted for leaves with its vectors in any order, and move each leaf alike.
pub fn leaves_are_led()
    ensures { LeavesAreLed }
{}

/// Commands on levels that are accepted for each statement under their prefix are accepted for all leaves, and change those alone.
pub fn levels_are_led()
    ensures { LevelsAreLed }
{}

/// The script for one statement's levels is of commands on levels under its prefix, is accepted, and makes the target's levels.
pub fn level_script_is_taken()
    ensures { LevelScriptIsTaken }
{}

/// Statements in beta order have their tree's vectors, in rising order.
pub fn ordered_rises()
    ensures { OrderedRises }
{}

/// The scripts for the levels of statements that stand alone are accepted one after the other, and each changes its own statement.
pub fn all_levels_are_led()
    ensures { AllLevelsAreLed }
{}

/// For two SCoPs with as many statements, parameters and iterators, the first in Clan's form, the second
/// recoverable, no command of the script is refused for the first one, and at all integers the script gives
/// each statement the second one's dense stamp. The script may be longer than one that is read or printed.
pub fn strategy_recovers()
    ensures { StrategyRecovers }
{}

/// Two valid SCoPs are not refused for themselves exactly where the numbers of their statements, parameters and
/// iterators are the same, the first is in Clan's form, and the second is recoverable.
pub fn unrefused_can_recover()
    ensures { UnrefusedCanRecover }
{}

/// The fissions are read off the dense vectors in beta order: how far neighbours agree says which loops are split, and a
/// count of the neighbours before says which children they are.
pub fn fissions_are_read()
    ensures { FissionsAreRead }
{}
