//! Tests of suite_base by its public calls.
#![tactic(auto)]

#[cfg(test)]
mod base_tests;
#[cfg(test)]
mod number_tests;
