//! What progress is possible from wherever a session stands: each of its transactions can still get a commit, and
//! each doubt ends, once the site and the coordinator are up. That the threads of a run get there isn't said here.
//! And what rest means: what committed is settled at all its sites. Each law is the contract of a function that does
//! nothing.
#![tactic(auto)]

mod ends;
mod progress;
mod settled;
mod wrong_rules;

pub use ends::ends_add_their_own;
pub use progress::{doubts_end_in_four, doubts_end_in_three, every_session_can_finish};
pub use settled::commits_are_settled_at_rest;
pub use wrong_rules::{wrong_answers, wrong_ends, wrong_rest};
