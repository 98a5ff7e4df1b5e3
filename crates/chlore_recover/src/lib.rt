//! The script that turns the schedules of one SCoP into those of another.
#![tactic(auto)]

mod laws;

pub use laws::{
    all_levels_are_led, apart_is_factored, factored_is_apart, fissions_are_read, fissions_lead,
    fuses_lead, least_is_first, leaves_are_led, level_script_is_taken, levels_are_led,
    ordered_rises, reorder_leads, script_recovers_levels, splits_leave_alone, strategy_recovers,
    suited_is_unrefused, unrefused_can_recover,
};
