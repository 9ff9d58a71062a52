//! Why a disk wasn't opened.
ghost use Rattle.std.specs.Prelude.{◌≡◌};
ghost use Rattle.file_disks.specs.declared.errors.OpenErr.TheVariants as OfOpen;

use journal_disk::Failed;
use mdb_base::Memory;
use std::alloc::{AllocError, AllocFailed};
use thiserror::Error;

/// Why a disk wasn't opened.
#[derive(Clone, Copy, Debug, PartialEq, Eq, Error)]
pub enum OpenErr {
    /// It comes only where the store's count of faults rose in the call.
    #[error("the disk failed")]
    Failed,
    /// The journal has more than 67,108,864 bytes.
    #[error("the journal has more than 67108864 bytes")]
    Large,
    #[error("no memory")]
    Memory,
}

impl From<Failed> for OpenErr {
    ghost from_gives = { λ _ e. e ≡ OfOpen.Failed };

    fn from(_: Failed) -> OpenErr {
        OpenErr::Failed
    }
}

impl From<Memory> for OpenErr {
    ghost from_gives = { λ _ e. e ≡ OfOpen.Memory };

    fn from(_: Memory) -> OpenErr {
        OpenErr::Memory
    }
}

impl From<AllocError> for OpenErr {
    ghost from_gives = { λ _ e. e ≡ OfOpen.Memory };

    fn from(_: AllocError) -> OpenErr {
        OpenErr::Memory
    }
}

impl<T: Drop> From<AllocFailed<T>> for OpenErr {
    ghost from_gives = { λ _ e. e ≡ OfOpen.Memory };

    fn from(_: AllocFailed<T>) -> OpenErr {
        OpenErr::Memory
    }
}
