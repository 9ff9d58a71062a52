//! One order for all sites, in the middle of any run: theorems on the definitions of `fed_rules`, for every scenario and every list of
//! commands. Each is the contract of a function that does nothing. `docs/RULES.md` tells the argument.
#![tactic(auto)]

mod program_laws;
mod serial_laws;
mod ticket_laws;
mod wrong_rules;

pub use program_laws::{
    commits_agree, later_runs_stand_in_no_order, members_follow_their_programs,
};
pub use serial_laws::{
    federation_is_serializable, parts_make_one_order, sites_are_serial_in_every_story,
};
pub use ticket_laws::{committed_tickets_are_cycle_free, conservative_tickets_close_no_cycle};
pub use wrong_rules::{wrong_commits, wrong_headlines, wrong_order};
