//! A search for what decides a system of rows: a rational point, or multipliers that refute every one.
//!
//! The general simplex method over integers. Each row of the tableau says that its positive denominator
//! times its own variable is the sum of its cells times the variables of the columns, and a constant. A
//! column's variable is 0, so that a row's variable has the value of its constant over its denominator. The
//! variables are those of the system, which are free, and the values of the system's rows, which are to be
//! 0 or at least 0. Pivots exchange the variable of a row and that of a column: first equalities become
//! columns, then free variables become rows, and then by Bland's rule each inequality whose value is
//! negative becomes a column. Where no column can raise it, the row itself is the contradiction: its cells
//! are the multipliers of the system's rows. Systems that begin alike are searched from a warm start: their
//! further rows join the tableau at which the search over their common rows has ended, but for those that hold
//! wherever the columns are as they may be; one that holds nowhere there ends the search at once.
//!
//! Nothing of this is proved but that it ends safely, so whoever calls it checks what it has found.
#![tactic(auto)]

mod divisors;
mod further_rows;
mod matrices;
mod pivots;
mod searches;
mod starts;
mod tableaux;
mod warm_starts;

pub use searches::{Candidate, search};
pub use warm_starts::WarmStart;
