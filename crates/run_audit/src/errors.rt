//! Why there is no verdict.
ghost use Rattle.std.specs.Prelude.{◌≡◌};
ghost use Rattle.run_audit.specs.Causes as causes;

use fed_world::WorldErr;
use scenario_text::{BadLine, TextErr};
use thiserror::Error;

/// Why there is no verdict.
#[derive(Clone, Copy, Debug, PartialEq, Eq, Error)]
pub enum AuditErr {
    /// The lines before `printed` spell no scenario, and this is the first bad one.
    #[error("a bad line")]
    Bad(BadLine),
    /// A call of the disk of this actor failed.
    #[error("disk {number} failed")]
    Disk { number: u8 },
    #[error("no memory")]
    Memory,
}

/// Why a text gives no verdict.
pub(crate) fn of_text(why: TextErr) -> AuditErr
    ensures { result ≡ causes.of_text why }
{
    match why {
        TextErr::Bad(bad) => AuditErr::Bad(bad),
        TextErr::Memory => AuditErr::Memory,
    }
}

/// Why a world gives none.
pub(crate) fn of_world(why: WorldErr) -> AuditErr
    ensures { result ≡ causes.of_world why }
{
    match why {
        WorldErr::Disk { number } => AuditErr::Disk { number },
        WorldErr::Memory => AuditErr::Memory,
    }
}
