//! What the audit of a printed run promises: a yes implies the headline of the session, with the printed order in
//! place of the least one. Each law is the contract of a function that does nothing.
#![tactic(auto)]

mod any_run;

pub use any_run::{a_yes_implies_the_headline, quiet_runs_rest};
