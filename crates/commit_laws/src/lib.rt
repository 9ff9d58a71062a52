//! Atomic commitment over every loss, repeat and stop, as theorems on the definitions of `fed_rules`: in the story of any scenario and any
//! commands all sites settle an attempt alike, a commit finds every participant prepared, an attempt is sealed once, and the coordinator
//! forgets an attempt exactly when its required acknowledgements are in. Each is the contract of a function with an empty body.
//! `docs/RULES.md` tells the invariant and why it holds.
#![tactic(auto)]

mod forgetting_laws;
mod outcome_laws;
mod past_laws;
mod prepared_laws;
mod seal_laws;
mod wrong_rules;

pub use forgetting_laws::{
    attempts_are_forgotten_when_acknowledged, attempts_end_by_their_outcomes,
    inquiries_in_doubt_are_answered_the_outcome,
};
pub use outcome_laws::{sites_settle_alike, sites_settle_the_outcome};
pub use past_laws::coordinators_are_made_by_events;
pub use prepared_laws::commits_find_all_prepared;
pub use seal_laws::{
    acknowledged_attempts_are_over, attempts_are_sealed_once, closed_attempts_have_no_live_run,
    commits_meet_no_live_run, later_runs_come_to_nothing,
};
pub use wrong_rules::{
    right_rules_in_this_form, wrong_acknowledgement, wrong_coordinators, wrong_epochs,
    wrong_forgetting,
};
