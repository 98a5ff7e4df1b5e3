//! The loops that are open at a place of the walk.

/// Which way a loop runs.
#[derive(Clone, Copy, Debug, PartialEq, Eq)]
pub enum Direction {
    Upward,
    Downward,
}

/// An open loop: which way it runs, and its number among the assignments and loops beside it, from 0.
#[derive(Clone, Copy, Debug, PartialEq, Eq)]
pub struct Turn {
    pub direction: Direction,
    pub beta: usize,
}
