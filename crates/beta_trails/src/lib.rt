//! Dense beta vectors in lexicographic order as a trail of lengths and agreements, and what edits make of them.
#![tactic(auto)]

mod laws;

pub use laws::{
    apart_is_ranked, first_is_parted_at_one, fission_parts, fuse_joins, reorder_places,
    sorted_tree_agrees, sorted_tree_is_trail, trail_is_tree,
};
