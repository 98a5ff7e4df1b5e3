//! Beta vectors as a tree of loops, and the operations that a script's commands have on it.
#![tactic(auto)]

mod betas;
mod copies;
mod edits;
mod laws;
pub mod length_laws;
mod looks;
mod rebuilds;
mod refusals;
mod tables;

pub use betas::Betas;
pub use copies::copied_vector;
pub use laws::{
    answers_are_trees, dense_stays, fission_keeps_order, fuse_keeps_order, fuse_undoes_fission,
    leaf_keeps_order, level_keeps_order, reorder_undoes_reorder,
};
pub use refusals::BetaFail;
