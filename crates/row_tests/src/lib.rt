//! Tests of row_core, relation_core, farkas_cert, simplex_core and elim_core by their public calls, on worked systems.
#![tactic(auto)]

#[cfg(test)]
mod certificate_tests;
#[cfg(test)]
mod decision_tests;
#[cfg(test)]
mod dense_tests;
#[cfg(test)]
mod relation_tests;
#[cfg(test)]
mod row_tests;
#[cfg(test)]
mod search_tests;
#[cfg(test)]
mod sharing_tests;
#[cfg(test)]
mod simplex_tests;
#[cfg(test)]
mod test_systems;
#[cfg(test)]
mod values;
