//! The journal of the coordinator: what it initiated, committed, aborted and ended, and its Checkpoints. Record formats are this project's profile.
#![tactic(auto)]

mod decoding;
mod encoding;
mod format;
mod laws;

pub use encoding::is_large;
pub use fed_rules::CoordRecord;
pub use format::CoordFormat;
use frame_journal::Journal;
pub use laws::{frames_have_the_lengths_of_the_rules, payloads_have_the_lengths_of_the_rules};

/// The records of the coordinator on its disk.
pub type CoordJournal = Journal<CoordRecord, CoordFormat>;
