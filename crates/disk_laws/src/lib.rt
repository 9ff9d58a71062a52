//! What the actors of a session that began with empty disks leave on their disks, behind any commands and any stop: journals from which a session
//! may go on. Each law is the contract of a function with an empty body.
#![tactic(auto)]

mod coordinators;
mod sites;
mod usable;

pub use coordinators::{
    checkpoints_are_sums_of_the_coordinator, journals_close_no_cycle, journals_name_declared_sites,
    journals_stand_in_order,
};
pub use sites::{
    attempts_are_recorded_once, checkpoints_are_sums_of_the_site, checkpoints_are_within,
    doubts_stand_in_order, epochs_rise, journals_begin_with_their_site,
    local_commits_stand_in_order, numbers_are_below, numbers_begin_at_one, numbers_differ,
    tickets_rise,
};
pub use usable::{every_disk_is_usable, locals_are_not_named, names_are_read, tickets_are_below};
