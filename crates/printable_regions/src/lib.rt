//! What the parser derives from a text can be printed: laws, without code.
#![tactic(auto)]

mod laws;

pub use laws::{
    derived_regions_are_printable, derived_regions_are_sound, sound_regions_are_printable,
};
