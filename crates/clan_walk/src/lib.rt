//! The pieces of a region's SCoP, made statement by statement on a walk over the region.
#![tactic(auto)]

mod array_names;
mod domains;
mod extractions;
mod finishing;
mod gathering;
pub mod laws;
mod scatterings;
mod turns;

pub use extractions::Extraction;
pub use gathering::Accesses;
pub use turns::{Direction, Turn};
