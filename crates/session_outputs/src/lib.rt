//! What each command of the program makes of its input, before anything is put. The session is carried out on nine
//! disks. The output is its lines and its report, or of a made scenario the summary of its journals, or else which disk
//! failed.
#![tactic(auto)]

mod made_output;
mod making;
mod output;
mod replay_output;
mod run_output;
mod summary;
mod summing;
mod threaded;

pub use made_output::made_output_of;
pub use making::Making;
pub use replay_output::output_of;
pub use run_output::run_output_of;
