//! What is read of the journals on all disks is what all records say: the laws of `site_history` and `coord_laws` together.
#![tactic(auto)]

mod sums;

pub use sums::{
    coordinators_disks_tell_restarts, journals_are_read, usable_journals_go_on, wrong_reading,
};
