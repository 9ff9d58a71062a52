//! Why the reading of a line gives nothing.
ghost use Rattle.std.specs.Prelude.{◌≡◌};

use std::alloc::{AllocError, AllocFailed};
use thiserror::Error;

/// Why no line is read.
#[derive(Clone, Copy, Debug, Drop, Error)]
pub enum LineErr {
    #[error("the text is no line")]
    NoLine,
    #[error("no memory")]
    Memory,
}

impl From<AllocError> for LineErr {
    ghost use Rattle.trace_lines.specs.declared.error.LineErr.TheVariants.{Memory};

    ghost from_gives = { λ _ e. e ≡ Memory };

    fn from(_: AllocError) -> LineErr {
        LineErr::Memory
    }
}

impl<T: Drop> From<AllocFailed<T>> for LineErr {
    ghost use Rattle.trace_lines.specs.declared.error.LineErr.TheVariants.{Memory};

    ghost from_gives = { λ _ e. e ≡ Memory };

    fn from(_: AllocFailed<T>) -> LineErr {
        LineErr::Memory
    }
}
