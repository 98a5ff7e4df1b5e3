//! Tests of scop_core, scop_reader and scop_writer by their public calls, on texts of SCoPs.
#![tactic(auto)]

#[cfg(test)]
mod floor_tests;
#[cfg(test)]
mod reader_tests;
#[cfg(test)]
mod scop_tests;
