//! The laws of the solved form: what is printed reads back, and means what its rows mean. Functions that do
//! nothing, and whose contracts are the laws.

ghost use Rattle.schedule_forms.specs.SolvedLaws.{ScheduleReadsBack, AccessReadsBack, ScatteringIsSolved, AccessIsSolved, SolvedScheduleMeansItsRelation, SolvedAccessMeansItsRelation, FloorRowsMeanFloors};

/// The rows that a schedule in solved form is printed as are a scattering in solved form, and read
/// as that schedule.
pub fn schedule_reads_back()
    ensures { ScheduleReadsBack }
{}

/// The rows that an access in solved form is printed as are an access relation in solved form, and
/// read as that access.
pub fn access_reads_back()
    ensures { AccessReadsBack }
{}

/// The schedule encoded by a scattering in solved form has sizes of at least 1, and floors that use
/// earlier floors alone.
pub fn scattering_is_solved()
    ensures { ScatteringIsSolved }
{}

/// The access encoded by an access relation in solved form has an identifier of at least 1.
pub fn access_is_solved()
    ensures { AccessIsSolved }
{}

/// The outputs that the rows of a scattering in solved form allow are the stamp of its schedule.
pub fn solved_schedule_means_its_relation()
    ensures { SolvedScheduleMeansItsRelation }
{}

/// The outputs that the rows of an access relation in solved form allow are the cell that its access
/// uses: the identifier of the array, then the subscripts.
pub fn solved_access_means_its_relation()
    ensures { SolvedAccessMeansItsRelation }
{}

/// The rows of floors in solved form hold exactly where each local is the value of its floor.
pub fn floor_rows_mean_floors()
    ensures { FloorRowsMeanFloors }
{}
