//! What `resume` makes of nine disks, before anything is put. A session goes on from the journals that are found on them: every actor comes
//! back, and the session is closed. The output is its lines and what is reported of it, or else which disk failed.
#![tactic(auto)]

mod printing;
mod resuming;

pub use found_disks::ReopenErr;
pub use resuming::resume_output_of;
