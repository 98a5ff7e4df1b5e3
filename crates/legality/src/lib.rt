//! Whether a script may be applied to a SCoP: exactly where no pair of instances that touch can change its order.
#![tactic(auto)]

mod checking;
mod deciding;
pub mod laws;
mod legal;
mod levels;
mod mixing;
mod reversing;
mod scripts;
mod systems;

pub use legal::Legal;
pub use scripts::check;
