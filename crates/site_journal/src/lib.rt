//! The journal of a site: its set-up, its starts, what it prepared, ended and committed, and its Checkpoints. Record formats are this project's profile.
#![tactic(auto)]

mod decoding;
mod encoding;
mod format;
mod laws;

pub use encoding::is_large;
pub use fed_rules::SiteRecord;
pub use format::SiteFormat;
use frame_journal::Journal;
pub use laws::{frames_have_the_lengths_of_the_rules, payloads_have_the_lengths_of_the_rules};

/// The records of a site on its disk.
pub type SiteJournal = Journal<SiteRecord, SiteFormat>;
