//! Tests of beta_tree and clay_script by their public calls.
#![tactic(auto)]

#[cfg(test)]
mod beta_tests;
#[cfg(test)]
mod script_tests;
