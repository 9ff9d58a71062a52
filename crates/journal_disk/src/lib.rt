//! A disk that may stop at any byte, and journals of frames on it: append-only bytes with a cut at their end and a trim at
//! their front, of which a stop leaves a prefix that has at least the synced ones. The disk model is this project's profile.
#![tactic(auto)]

mod disk;
mod errors;
mod frames;
mod laws;
mod mem_disk;
mod reading;

pub use disk::Disk;
pub use errors::{DiskErr, Failed, FrameErr, JournalErr};
pub use frames::{LONGEST_PAYLOAD, ROOM_BEFORE, ROOM_BEHIND, Version, append_frame};
pub use laws::{damage_is_seen, frames_are_apart, what_a_stop_leaves, whole_frames_survive};
pub use mem_disk::MemDisk;
pub use reading::Frames;
