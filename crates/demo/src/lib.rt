//! A demo: a number of loops taken from C to a SCoP, its dependences, an edited SCoP, and back to a script.
#![tactic(auto)]

mod counting;
mod demonstrating;
mod scripts;
mod summaries;
mod texts;

pub use demonstrating::demonstrate;
pub use texts::demo_text;
