//! Exact rational emptiness of systems of rows, with a certificate for every empty one.
//!
//! A verdict is searched for by the simplex method first, and given only once it is checked: a point after
//! every row was summed there, a refutation after `check` accepted its multipliers. Where that finds
//! nothing, the stated elimination decides, over unbounded integers in effect: an entry that passes
//! 2^127 - 1 ends it. A working row is a combination of the system's rows with its multipliers behind its
//! entries, so a row without variables that cannot hold is a contradiction whose multipliers are the
//! certificate. First each equality is solved for its last variable and substituted in the other rows; then
//! each column is projected by Fourier-Motzkin elimination, every row with a positive entry there crossed with
//! every row with a negative one. Each new row is divided by the greatest common divisor of its entries, and
//! after each step the rows are normalised: those without variables go, and of inequalities with equal
//! coefficients the one with the least constant stays. If all columns are gone and there was no
//! contradiction, the system has a point.
#![tactic(auto)]

mod continuations;
mod counts;
mod decisions;
mod division;
mod keys;
mod marks;
mod normalising;
mod opposed_rows;
mod orders;
mod phases;
mod projections;
mod pruning;
mod reductions;
mod refutations;
mod repairs;
mod searches;
mod signs;
mod starts;
mod substitutions;
mod tableaux;
mod verdicts;
mod working_rows;

pub use continuations::decide_with;
pub use decisions::{decide, decide_by};
pub use reductions::{Reduced, reduce};
pub use searches::{Search, search_checked};
pub use verdicts::{ElimFail, Verdict};
