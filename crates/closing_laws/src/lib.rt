//! What closing does, and what a transaction does that is finished alone, on the definitions of `fed_rules`: for every scenario and every
//! list of commands. Each law is the contract of a function that does nothing.
#![tactic(auto)]

mod alone;
mod closing;

pub use alone::{
    finished_sessions_commit, finishing_is_bounded, globals_commit_alone, locals_commit_alone,
};
pub use closing::{
    closed_sessions_rest, closing_is_bounded, closing_stays_up, sites_begin_attempts_once,
};
