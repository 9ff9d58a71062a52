//! What the journal of a site or of the coordinator says, computed from its records in one pass: the content of a Checkpoint, and what a
//! start begins from.
//!
//! At a site rows, attempts in doubt and local attempts are kept in trees and sorted lists, so that all takes n log n steps in what the journal
//! holds. Records may stand in any order, with any numbers, and a Checkpoint anywhere among them.
#![tactic(auto)]

mod committed;
mod coord_sums;
mod copies;
mod counters;
mod doubtful;
mod laws;
mod locals;
mod open_attempts;
mod reading;
mod starts;
mod sums;
mod versions;

pub use coord_sums::read_coord_sum;
pub use laws::doubts_differ;
pub use starts::{doubts_of, kept_of};
pub use sums::read_sum;
