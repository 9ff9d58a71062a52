//! The histories of the hosts of a threaded run, and what they are together: laws on lists, without code.
#![tactic(auto)]

mod merged;
mod stops;
mod written;

pub use merged::{merged_lines_are_right, messages_are_carried};
pub use stops::stops_are_armed;
pub use written::{from_site_fits, to_site_fits};
