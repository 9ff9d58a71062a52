//! How a world goes on from its disks: the journals that stand there are read, and its actors go on from them.
#![tactic(auto)]

mod found_begun;
mod found_sites;
mod reopening;

pub use found_disks::ReopenErr;
pub use reopening::Reopen;
