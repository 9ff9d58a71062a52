//! What rest means for the global transactions that committed.
ghost use Rattle.progress_laws.specs.Settled.{CommitsAreSettledAtRest};

use federation_laws::{commits_agree, federation_is_serializable};

/// In a session at rest each global attempt whose outcome is commit is settled by commit at each site at which its
/// program has a step: it was prepared there, it ended there by commit, and the site isn't in doubt of it.
pub fn commits_are_settled_at_rest()
    ensures { CommitsAreSettledAtRest }
{
    federation_is_serializable();
    commits_agree();
}
