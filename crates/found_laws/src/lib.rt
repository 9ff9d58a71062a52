//! A session that goes on from usable disks, whoever left them: how it begins, and what comes to its actors.
#![tactic(auto)]

mod laws;

pub use laws::{found_lines_are_few, usable_sessions_begin, usable_sessions_go_on};
