//! Scripts of loop transformations: their text, read with the place of its first fault, and their
//! one printed layout.
#![tactic(auto)]

mod command_names;
mod commands;
mod lexers;
mod printers;
mod readers;
mod tokens;
mod vectors;

pub use commands::{Command, Script};
pub use printers::print_script;
pub use readers::read_script;
pub use vectors::Vector;
