//! A site by itself in any story, over all its stops and restarts: theorems on the definitions alone, each the contract of a function
//! with an empty body.
#![tactic(auto)]

mod right_lines;
mod serial_pasts;
mod stories;
mod sums;
mod tables;

pub use right_lines::engine_lines_are_right;
pub use serial_pasts::{
    epochs_start_well, restarts_keep_sealed_runs, sites_are_serial, sites_prepare_once,
};
pub use stories::{
    each_site_of_a_story_is_serial, events_are_sorted, stories_have_right_lines,
    stories_have_serial_sites, stories_prepare_once, tickets_rise,
};
pub use sums::{checkpoints_say_nothing_new, journals_say_all, sites_journals_say_all, sums_go_on};
pub use tables::engines_have_the_tables_of_their_records;
