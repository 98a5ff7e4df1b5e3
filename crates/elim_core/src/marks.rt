//! The marks of a pruning.

use std::collections::BTreeMap;

/// Where the inequalities with one key stand that stay.
#[derive(Clone, Copy, Debug, PartialEq, Eq)]
pub enum Place {
    /// At this place alone.
    Only(usize),
    /// At more than one place.
    Several,
}

/// Which of the first rows stay, and by the keys of their coefficients where the inequalities among
/// them stand.
#[derive(Drop)]
pub struct Marks {
    pub stays: Vec<bool>,
    pub places: BTreeMap<u128, Place>,
}
