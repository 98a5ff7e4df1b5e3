//! The laws of points, for every part: functions that do nothing, and whose contracts are the laws.

ghost use Rattle.relation_core.specs.Points.{MembersAreRationalPoints};

/// A point that lies in a part is a rational point of its rows, with the factor 1: a part without
/// rational points holds no point.
pub fn members_are_rational_points()
    ensures { MembersAreRationalPoints }
{}
