//! Why a world doesn't carry out a command.
use thiserror::Error;

/// Why a command has no line.
#[derive(Clone, Copy, Debug, PartialEq, Eq, Error)]
pub enum WorldErr {
    /// A call of the disk of this actor failed.
    #[error("disk {number} failed")]
    Disk { number: u8 },
    /// There is no memory.
    #[error("no memory")]
    Memory,
}
