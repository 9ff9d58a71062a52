//! What a finished session reports, from its lines, the messages of its sites, the marks of their records and what the coordinator has
//! committed. Nothing of the cores is read but that.
#![tactic(auto)]

mod commits;
mod gathering;
mod laws;
mod marks;
mod orders;
mod reads;
mod reporting;
mod session;
mod telling;

pub use laws::lines_mark_one;
pub use marks::{Mark, Marks};
pub use reporting::{report, report_in};
pub use session::Channel;
