//! Why a call on a disk or on a journal gives no answer.
ghost use Rattle.std.specs.Prelude.{◌≡◌};
ghost use Rattle.journal_disk.specs.Causes.{journal_cause};
ghost use Rattle.journal_disk.specs.declared.errors.DiskErr.TheVariants as OfDisk;
ghost use Rattle.journal_disk.specs.declared.errors.FrameErr.TheVariants as OfFrame;
ghost use Rattle.journal_disk.specs.declared.errors.JournalErr.TheVariants as OfJournal;

use mdb_base::Memory;
use std::alloc::{AllocError, AllocFailed};
use thiserror::Error;

/// A disk didn't do what it was told. It comes only where the disk's count of faults rose in the call.
#[derive(Clone, Copy, Debug, PartialEq, Eq, Error)]
#[error("the disk failed")]
pub struct Failed;

/// Why a frame wasn't appended.
#[derive(Clone, Copy, Debug, PartialEq, Eq, Error)]
pub enum FrameErr {
    /// The payload has more than 65,535 bytes.
    #[error("the payload has more than 65535 bytes")]
    TooLong,
    #[error("the disk failed")]
    Failed,
}

/// Why a disk wasn't read.
#[derive(Clone, Copy, Debug, PartialEq, Eq, Error)]
pub enum DiskErr {
    /// The whole frame at this place, counted in bytes from 0, has another digest than the bytes in it.
    #[error("the frame at {at} is damaged")]
    Damaged { at: u64 },
    #[error("the disk failed")]
    Failed,
    #[error("no memory")]
    Memory,
}

/// Why a journal wasn't loaded.
#[derive(Clone, Copy, Debug, PartialEq, Eq, Error)]
pub enum JournalErr {
    /// The whole frame at this place, counted in bytes from 0, is no record.
    #[error("the frame at {at} is no record")]
    Malformed { at: u64 },
    /// The whole frame at this place has another digest than the bytes in it.
    #[error("the frame at {at} is damaged")]
    Damaged { at: u64 },
    #[error("the disk failed")]
    Failed,
    #[error("no memory")]
    Memory,
}

impl From<Failed> for FrameErr {
    ghost from_gives = { λ _ e. e ≡ OfFrame.Failed };

    fn from(_: Failed) -> FrameErr {
        FrameErr::Failed
    }
}

impl From<Failed> for DiskErr {
    ghost from_gives = { λ _ e. e ≡ OfDisk.Failed };

    fn from(_: Failed) -> DiskErr {
        DiskErr::Failed
    }
}

impl From<Memory> for DiskErr {
    ghost from_gives = { λ _ e. e ≡ OfDisk.Memory };

    fn from(_: Memory) -> DiskErr {
        DiskErr::Memory
    }
}

impl From<AllocError> for DiskErr {
    ghost from_gives = { λ _ e. e ≡ OfDisk.Memory };

    fn from(_: AllocError) -> DiskErr {
        DiskErr::Memory
    }
}

impl<T: Drop> From<AllocFailed<T>> for DiskErr {
    ghost from_gives = { λ _ e. e ≡ OfDisk.Memory };

    fn from(_: AllocFailed<T>) -> DiskErr {
        DiskErr::Memory
    }
}

impl From<Failed> for JournalErr {
    ghost from_gives = { λ _ e. e ≡ OfJournal.Failed };

    fn from(_: Failed) -> JournalErr {
        JournalErr::Failed
    }
}

impl From<Memory> for JournalErr {
    ghost from_gives = { λ _ e. e ≡ OfJournal.Memory };

    fn from(_: Memory) -> JournalErr {
        JournalErr::Memory
    }
}

impl<T: Drop> From<AllocFailed<T>> for JournalErr {
    ghost from_gives = { λ _ e. e ≡ OfJournal.Memory };

    fn from(_: AllocFailed<T>) -> JournalErr {
        JournalErr::Memory
    }
}

impl From<DiskErr> for JournalErr {
    ghost from_gives = { λ why e. e ≡ journal_cause why };

    fn from(why: DiskErr) -> JournalErr {
        match why {
            DiskErr::Damaged { at } => JournalErr::Damaged { at },
            DiskErr::Failed => JournalErr::Failed,
            DiskErr::Memory => JournalErr::Memory,
        }
    }
}
