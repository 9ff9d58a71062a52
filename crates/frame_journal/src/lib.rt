//! A journal of records on a disk that may stop at any byte: one frame for each record. What a stop leaves of it are the records whose
//! frames are still whole, and a proper prefix of one frame, which a restart cuts back. The journals of the sites and of the coordinator
//! differ in the format of their records alone.
#![tactic(auto)]

mod entry;
mod format;
mod journal;
mod laws;
mod loading;
mod stopping;
mod trimming;

pub use format::Format;
pub use journal::Journal;
pub use laws::{
    a_new_journal_is_kept_on_an_empty_disk, a_stop_leaves_the_first_records, records_are_apart,
};
