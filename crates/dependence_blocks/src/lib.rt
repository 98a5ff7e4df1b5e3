//! The block of dependences as text: an extension of a SCoP that lists the systems, each kept with its rows or
//! dropped with its multipliers.
#![tactic(auto)]

pub mod laws;
mod printing;

pub use printing::{block, entry_is_readable, kind_word, print_count, print_entry};
