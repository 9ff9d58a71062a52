//! Why a sealing has no success.
use mdb_base::{Memory, Why};
use thiserror::Error;

/// Why a run isn't sealed.
#[derive(Clone, Copy, Debug, PartialEq, Eq, Error)]
pub enum SealErr {
    /// The rule refuses it, and the run is aborted.
    #[error("the sealing is refused")]
    Refused(Why),
    /// There is no memory, and nothing changed.
    #[error("no memory")]
    Memory,
}

impl From<Memory> for SealErr {
    ghost use Rattle.std.specs.Prelude.{◌≡◌};
    ghost use Rattle.engine_contract.specs.declared.seal_err.SealErr.TheVariants as Err_is;

    ghost from_gives = { λ _ e. e ≡ Err_is.Memory };

    fn from(_: Memory) -> SealErr {
        SealErr::Memory
    }
}
