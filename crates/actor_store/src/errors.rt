//! Why a step of an actor has no answer.
use mdb_base::Memory;
use thiserror::Error;

/// Why a step isn't answered.
#[derive(Clone, Copy, Debug, PartialEq, Eq, Error)]
pub enum StepErr {
    /// A disk call failed. The actor is down, as after a stop.
    #[error("the disk failed")]
    Disk,
    /// There is no memory, and nothing changed.
    #[error("no memory")]
    Memory,
}

impl From<Memory> for StepErr {
    ghost use Rattle.std.specs.Prelude.{◌≡◌};
    ghost use Rattle.actor_store.specs.declared.errors.StepErr.TheVariants as Err_is;

    ghost from_gives = { λ _ e. e ≡ Err_is.Memory };

    fn from(_: Memory) -> StepErr {
        StepErr::Memory
    }
}
