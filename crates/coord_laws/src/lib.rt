//! What holds of a coordinator by itself: of every past that events make of it, whatever they are, with stops, trips and restarts, if only
//! each `go` is of the next attempt of its transaction. No site and no session is spoken of, so that a coordinator's core can rest on it.
//! Each law is the contract of a function with an empty body.
#![tactic(auto)]

mod attempts;
mod records;
mod sums;
mod wrong_pasts;

pub use attempts::{
    attempts_begin_in_order, decisions_are_outcomes, known_attempts_were_begun,
    unbegun_attempts_were_not_sent, undecided_attempts_are_unmarked,
};
pub use records::{
    commits_close_no_cycle, recorded_attempts_were_begun, records_name_the_participants,
};
pub use sums::{
    coordinators_checkpoints_are_sums, coordinators_disks_say_all, coordinators_journals_say_all,
};
pub use wrong_pasts::repeated_attempts_begin_twice;
