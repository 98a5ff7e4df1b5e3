//! The laws of the walk: functions that do nothing, and whose contracts are the laws.

ghost use Rattle.clan_walk.specs.Laws.{WalkTranslates, WalkFinishes, WalkKeepsPlaces, WalkSkipsEmpty, WalkStaysClosed};

/// Behind a whole region the first refusal is that of the region's translation; where there is none and
/// the region can be printed, the pieces are those that its SCoP is printed as.
pub fn walk_translates()
    ensures { WalkTranslates }
{}

/// Behind a region that can be printed, the pieces can be assembled where nothing was refused, and give
/// the region's SCoP.
pub fn walk_finishes()
    ensures { WalkFinishes }
{}

/// Behind a statement the names, loops and layers are as before it, and its assignments were counted, up
/// to one above the limit.
pub fn walk_keeps_places()
    ensures { WalkKeepsPlaces }
{}

/// A statement without an assignment changes nothing, where no accesses are at hand: it may be left out.
pub fn walk_skips_empty()
    ensures { WalkSkipsEmpty }
{}

/// Behind a place where no statement is made any more, the pieces and the refusal stay: the rest of a
/// region has only to be counted.
pub fn walk_stays_closed()
    ensures { WalkStaysClosed }
{}
