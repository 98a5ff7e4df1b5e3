//! What a dependence system is of.

/// Which of the two accesses of a system write.
#[derive(Clone, Copy, Debug, PartialEq, Eq)]
pub enum DepKind {
    /// The source writes, the target reads.
    Raw,
    /// The source reads, the target writes.
    War,
    /// Both write.
    Waw,
}

/// One entry of the list of systems. Statements, accesses and parts are numbered from 1; the level is
/// the number of the loop that carries the dependence, from 1, or 0 where it is carried by none.
#[derive(Clone, Copy, Debug, PartialEq, Eq)]
pub struct Dep {
    pub kind: DepKind,
    pub source: u32,
    pub target: u32,
    pub source_access: u32,
    pub target_access: u32,
    pub source_part: u32,
    pub target_part: u32,
    pub level: u32,
}

/// The two statements of a dependence: their numbers, from 1, how many parts their domains have, how
/// many loops are around both, and whether the first one stands before the second one in the text.
#[derive(Clone, Copy, Debug, PartialEq, Eq)]
pub struct Ends {
    pub source: u32,
    pub target: u32,
    pub source_parts: u32,
    pub target_parts: u32,
    pub common: u32,
    pub in_text: bool,
}
