//! Calls that fail: those that are listed, and the count of them.
ghost use Rattle.std.specs.Prelude.{◌≡◌, ◌↔◌, IsTrue, IsErr, MatchResult, Contains};
ghost use Rattle.mdb_base.specs.Counts.{HasCause};

use journal_disk::Failed;

/// Hands an answer on without the reason of a failure, which is counted.
pub fn counted<T, E: Drop>(faults: &mut u64, answer: Result<T, E>) -> Result<T, Failed>
    ensures same { MatchResult answer (λ value. result ≡ Ok value) (λ _. IsErr result) }
    ensures cause { HasCause faults.old faults.new result }
{
    match answer {
        Ok(value) => Ok(value),
        Err(_) => {
            *faults = faults.saturating_add(1);
            Err(Failed)
        }
    }
}

/// Whether this call is one of those.
pub fn is_listed(failing: &[u32], call: u64) -> bool
    ensures { IsTrue result ↔ Contains failing.now call }
{
    failing.iter().any(|listed| u64::from(*listed) == call)
}
