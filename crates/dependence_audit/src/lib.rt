//! The audit of a printed block of dependences: every entry is compared with the system that the SCoP defines, and the
//! multipliers of a dropped one are checked. No system is decided.
#![tactic(auto)]

mod audits;
mod comparing;
mod content_lines;
pub mod laws;
mod readings;

pub use audits::{Counts, audit};
