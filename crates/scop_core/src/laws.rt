//! The laws of valid SCoPs and of their pieces: functions that do nothing, and whose contracts are the laws.

ghost use Rattle.scop_core.specs.KeptLimits.{ValidScopsHaveValidSchedules, ValidScopsKeepLimits};
ghost use Rattle.scop_core.specs.ReadBack.{StatementsAreSolved, PiecesReadBack};

/// The schedules of a valid SCoP are valid, so that the laws of stamps hold of it.
pub fn schedules_are_valid()
    ensures { ValidScopsHaveValidSchedules }
{}

/// A valid SCoP keeps all limits: of the whole and of each statement.
pub fn limits_are_kept()
    ensures { ValidScopsKeepLimits }
{}

/// The statements of a SCoP that pieces give without a refusal are in solved form: floors have sizes
/// of at least 1 and use earlier floors alone, arrays have identifiers of at least 1.
pub fn statements_are_solved()
    ensures { StatementsAreSolved }
{}

/// A SCoP that printable pieces give without a refusal is what the pieces that it is printed as give.
pub fn pieces_read_back()
    ensures { PiecesReadBack }
{}
