//! Laws of the scripts of commands that edit the schedule of a SCoP: what they keep of its instances.
#![tactic(auto)]

pub mod laws;
