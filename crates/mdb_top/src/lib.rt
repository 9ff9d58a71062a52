//! The top of the federation: words, bytes and nine disks in, lines and a report out, and a status.
#![tactic(auto)]

mod audit_call;
mod bad_lines;
mod input;
mod made;
mod mem_streams;
mod reading;
mod resume_call;
mod store;
mod streams;
mod telling;
mod top_call;
mod used_disks;
mod words;
mod writing;

pub use federation_run::{Gate, NoGate};
pub use journal_disk::{Disk, Failed, MemDisk};
pub use mem_streams::{MemSink, MemSource};
pub use store::federate_store;
pub use streams::{Sink, Source};
pub use top_call::federate;
pub use words::names_folder;
