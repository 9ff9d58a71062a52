//! Why a call of a door gives nothing.
use thiserror::Error;

/// Why a host carries nothing out.
#[derive(Clone, Copy, Debug, PartialEq, Eq, Drop, Error)]
pub enum DoorErr {
    #[error("the disk failed")]
    Disk,
    #[error("no memory")]
    Memory,
}
