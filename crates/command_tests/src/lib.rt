//! Tests of `suite` over objects in memory: one call that fails. And of the adapters over the system's streams
//! and files.
#![tactic(auto)]

#[cfg(test)]
mod adapter_tests;
#[cfg(test)]
mod examples;
#[cfg(test)]
mod fault_tests;
#[cfg(test)]
mod message_tests;
#[cfg(test)]
mod runs;
#[cfg(test)]
mod short_sinks;
#[cfg(test)]
mod texts;
