//! Why a session doesn't go on from its disks.
use thiserror::Error;

/// Why a session doesn't go on from its disks.
#[derive(Clone, Copy, Debug, PartialEq, Eq, Error)]
pub enum ReopenErr {
    /// A frame of this disk, at this place, is damaged or no record.
    #[error("disk {number} is damaged at {at}")]
    Damaged { number: u8, at: u64 },
    /// The journal on this disk isn't one from which a session may go on.
    #[error("disk {number} is foreign")]
    Foreign { number: u8 },
    /// A call of this disk failed.
    #[error("disk {number} failed")]
    Disk { number: u8 },
    /// There is no memory.
    #[error("no memory")]
    Memory,
}
