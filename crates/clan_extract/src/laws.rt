//! The laws of the translation: functions that do nothing, and whose contracts are the laws.

ghost use Rattle.clan_extract.specs.Execution.{LoopsRunAsLongAs};
ghost use Rattle.clan_extract.specs.Counts.{PartsAreCounted};
ghost use Rattle.clan_extract.specs.Names.{NamesHaveOneRole, NamesAreListed};
ghost use Rattle.clan_extract.specs.ReadBack.{ScopReadsBack};
ghost use Rattle.clan_extract.specs.RowRanges.{RowsFitOnce};
ghost use Rattle.clan_extract.specs.Scops.{ScopMeansItsRegion, ScopHasItsNames};

/// The values of a loop are its start and each next one, as long as the comparison with its bound
/// holds; where its step goes toward the bound no count cuts them off.
pub fn loops_run_as_long_as()
    ensures { LoopsRunAsLongAs }
{}

/// For all names of parameters and arrays and all values of the parameters, the SCoP of a region whose
/// places of control can be translated has a run, whose final memory is the memory after the region.
pub fn scop_means_its_region()
    ensures { ScopMeansItsRegion }
{}

/// The SCoP of a region names the parameters that it was given, where there are some, and numbers the
/// arrays that it was given in their order.
pub fn scop_has_its_names()
    ensures { ScopHasItsNames }
{}

/// Where a region has no refusal and its names and texts can be printed, the pieces that its SCoP is
/// printed as give that SCoP without a refusal: no limit is passed, all is in solved form, and no two
/// beta vectors clash.
pub fn scop_reads_back()
    ensures { ScopReadsBack }
{}

/// The parts of a statement's domain, and the most rows and locals of a part, are counted from the
/// loops and conditions round the statement alone, without making a part.
pub fn parts_are_counted()
    ensures { PartsAreCounted }
{}

/// The rows of all parts of a domain are in range exactly where those of each loop and each comparison
/// are, asked once.
pub fn rows_fit_once()
    ensures { RowsFitOnce }
{}

/// Where no name clashes, all occurrences of a name have one role.
pub fn names_have_one_role()
    ensures { NamesHaveOneRole }
{}

/// Each name with the role of a parameter is among the parameters, and each with the role of an array
/// among the arrays.
pub fn names_are_listed()
    ensures { NamesAreListed }
{}
