//! Disks whose bytes lie in files too, and the stores that the nine disks of a federation come from. What a file of
//! the system holds is trusted: its type tells nothing. Of a file that tells its bytes it is proved that it holds
//! what the memory holds.
#![tactic(auto)]

mod counting;
mod errors;
mod file_disk;
mod file_store;
mod journal_file;
mod mem_file;
mod mem_store;
mod store;
mod system_file;

pub use errors::OpenErr;
pub use file_disk::FileDisk;
pub use file_store::FileStore;
pub use journal_file::JournalFile;
pub use mem_file::MemFile;
pub use mem_store::MemStore;
pub use store::{LONGEST_JOURNAL, Store};
pub use system_file::SystemFile;
