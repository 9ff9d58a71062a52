//! Why a reading stops.
ghost use Rattle.std.specs.Prelude.{◌≡◌};
ghost use Rattle.scenario_text.specs.declared.fault.Fault.TheVariants.{Memory, Bad};

use crate::bad::BadWhy;
use std::alloc::{AllocError, AllocFailed};

/// A reason to refuse a line, or want of memory.
#[derive(Clone, Copy, Debug, PartialEq, Eq)]
pub enum Fault {
    Bad(BadWhy),
    Memory,
}

impl From<BadWhy> for Fault {
    ghost from_gives = { λ why fault. fault ≡ Bad why };

    fn from(why: BadWhy) -> Fault {
        Fault::Bad(why)
    }
}

impl From<AllocError> for Fault {
    ghost from_gives = { λ _ fault. fault ≡ Memory };

    fn from(_error: AllocError) -> Fault {
        Fault::Memory
    }
}

impl<T: Drop> From<AllocFailed<T>> for Fault {
    ghost from_gives = { λ _ fault. fault ≡ Memory };

    fn from(_error: AllocFailed<T>) -> Fault {
        Fault::Memory
    }
}
