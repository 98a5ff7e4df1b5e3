//! What a script makes of a SCoP.

use scop_core::{Pieces, Scop};

/// A SCoP after a script, and for each of its statements the number, from 1, of the statement that it
/// comes from.
#[derive(Drop)]
pub struct Edited {
    pub scop: Scop,
    pub of: Pieces,
}
