//! The suite over any files, sources and sinks: the program's words, its runs and its messages, and the adapters over the
//! system's streams and files.
#![tactic(auto)]

mod adapters;
mod commands;
mod file_words;
mod loop_counts;
mod messages;
mod outcomes;
mod readings;
mod recoveries;
mod runs;
mod script_runs;
mod top;

pub use adapters::{RealFiles, RealInput, RealOutput};
pub use commands::{Work, read_words};
pub use outcomes::{Outcome, status};
pub use top::suite;
