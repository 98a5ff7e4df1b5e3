//! Parts and relations: systems of affine equalities and inequalities with existential integer
//! locals, and unions of them.
#![tactic(auto)]

pub mod laws;
mod layouts;
mod part_rows;
mod parts;
mod relations;
mod row_lists;
mod shapes;

pub use layouts::{append_part, print_header, print_part, print_row};
pub use part_rows::{PartRow, RowKind};
pub use parts::Part;
pub use relations::Relation;
pub use shapes::Shape;
