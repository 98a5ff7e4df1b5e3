//! OpenScop text of a SCoP, in the one printed layout.
#![tactic(auto)]

mod line_texts;
mod relation_texts;
mod scop_texts;
mod statement_texts;

pub use scop_texts::print_scop;
