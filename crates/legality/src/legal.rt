//! The answer to whether a script may be applied.

/// Whether a script keeps the order of all pairs of instances that touch.
#[derive(Clone, Copy, Debug, PartialEq, Eq)]
pub enum Legal {
    /// It does, and so the final memory too.
    Yes,
    /// The violation system of this number, from 1, has a rational point, and none before it has.
    Illegal(u32),
}
