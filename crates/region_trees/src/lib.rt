//! The region that a tree of c_parser stands for, and its SCoP or its first refusal.
#![tactic(auto)]

pub mod laws;
