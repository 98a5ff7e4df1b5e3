//! The columns of a dependence system.

/// The numbers of columns of each sort: iterators of source and target, locals of the two domain
/// parts, floors of the two schedules.
#[derive(Clone, Copy, Debug, PartialEq, Eq)]
pub struct Widths {
    pub source: usize,
    pub target: usize,
    pub source_part: usize,
    pub target_part: usize,
    pub source_floors: usize,
    pub target_floors: usize,
}

/// Of what a row that a system takes over speaks.
#[derive(Clone, Copy, Debug, PartialEq, Eq)]
pub enum Topic {
    /// Of the parameters alone.
    Context,
    /// Of the source's iterators and the locals of its domain part.
    SourcePart,
    /// Of the target's iterators and the locals of its domain part.
    TargetPart,
    /// Of the source's iterators and floors.
    SourceFloors,
    /// Of the target's iterators and floors.
    TargetFloors,
}

/// What two values are compared for.
#[derive(Clone, Copy, Debug, PartialEq, Eq)]
pub enum Comparison {
    /// Two subscripts are equal.
    Subscripts,
    /// Two levels are equal.
    EqualLevels,
    /// The source's level is less than the target's.
    LessLevels,
    /// The source's level is greater than the target's.
    GreaterLevels,
}
