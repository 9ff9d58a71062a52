//! What a session leaves on its nine disks is what a session that goes on from them finds there.
#![tactic(auto)]

mod ended;
mod left;

pub use ended::{ended_sessions_are_found_again, ended_sessions_leave_disks};
pub use left::{
    left_disks_are_accepted, left_disks_are_found_again, left_disks_are_usable, left_disks_go_on,
    left_disks_tell_the_session,
};
