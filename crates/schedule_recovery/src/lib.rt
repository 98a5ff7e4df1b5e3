//! A script that turns the schedules of one SCoP into those of another, or why there is none.
#![tactic(auto)]

mod beta_orders;
mod conditions;
mod level_scripts;
mod lookups;
mod orders;
mod passes;
mod prefixes;
mod pushes;
mod rank_tables;
mod recovering;
mod rows;

pub use recovering::recover;
