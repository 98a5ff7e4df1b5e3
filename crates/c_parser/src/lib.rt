//! Parses the region of a C text into a tree of spans over its source.
#![tactic(auto)]

mod heads;
mod regions;
mod rooms;
mod signs;
mod statements;
mod tree;
mod values;

pub use c_lexer::Piece;
pub use regions::parse_region;
pub use tree::{
    And, Arms, Assign, AssignSign, Branch, Compare, Equal, EqualSign, Loop, Node, Or, Primary,
    Product, ProductSign, Region, Rel, Step, Sum, SumSign, Target, Unary, UnarySign, Value,
};
