//! Farkas certificates: multipliers that show a system of rows to have no rational point, their
//! check, and their text; and the check of a rational point.
#![tactic(auto)]

mod certificates;
mod checks;
mod points;
mod products;
mod texts;

pub use certificates::Certificate;
pub use checks::{TooHeavy, check, valid_means_empty};
pub use points::check_point;
pub use texts::{print_cert, print_multipliers, read_cert, reads_back};
