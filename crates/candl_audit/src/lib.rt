//! The law that joins the two commands on dependences: the block that one prints passes the audit of the other.
#![tactic(auto)]

pub mod laws;
