//! That a session goes on rightly from the disks that another one left, on the definitions of `fed_rules`.
#![tactic(auto)]

mod again;
mod closed;
mod outcomes;
mod rests;
mod tables;
mod worked;

pub use again::{
    left_disks_are_found, stopped_sessions_keep_outcomes, stopped_sessions_rest,
    stops_keep_outcomes, usable_sessions_leave_usable,
};
pub use closed::{sessions_close_at_rest, sessions_close_shortly, sessions_stay_up};
pub use outcomes::{outcomes_stay, settles_agree};
pub use rests::{resumed_sessions_rest, usable_sessions_rest};
pub use tables::{disks_are_readable, readable_sessions_go_on, sessions_go_on, tables_are_serial};
pub use worked::{
    a_checkpoint_is_read_with_its_ends, a_local_transaction_is_also_begun,
    a_newest_record_alone_is_foreign, a_session_is_stopped_and_goes_on,
    another_transaction_is_begun,
};
