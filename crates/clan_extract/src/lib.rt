//! The meaning of C regions, and of the SCoPs that they are translated to.
#![tactic(auto)]

pub mod laws;
