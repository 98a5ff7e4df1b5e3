//! The SCoP of the region of a C text.
#![tactic(auto)]

mod accesses;
mod assignments;
mod places;
mod reads;
mod regions;
mod spaces;
mod texts;
mod walks;

pub use regions::extract;
pub use texts::region_scop;
