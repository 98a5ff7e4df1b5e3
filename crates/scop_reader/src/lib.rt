//! OpenScop text read: the pieces of a SCoP, or the first refusal of the text.
#![tactic(auto)]

mod array_rules;
mod bodies;
mod cursors;
mod extension_names;
mod headers;
mod kept_lines;
pub mod laws;
mod line_rules;
mod line_words;
mod number_words;
mod part_rules;
mod relation_rules;
mod roles;
mod scop_rules;
mod scop_texts;
mod statement_rules;
mod text_lines;

pub use roles::Role;
pub use scop_rules::read_pieces;
pub use scop_texts::read_scop;
