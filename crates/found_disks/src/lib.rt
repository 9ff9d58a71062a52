//! The journals that stand on nine disks: they are read, and tested whether a session may go on from them.
#![tactic(auto)]

mod errors;
mod finding;
mod laws;
mod reading;

pub use errors::ReopenErr;
pub use finding::find_journals;
pub use laws::{disks_have_one_answer, found_sessions_begin_shortly};
pub use reading::Journals;
