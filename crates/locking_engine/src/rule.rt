//! What a run is answered by who stands in its way.
ghost use Rattle.std.specs.Prelude.{◌≡◌};
ghost use Rattle.locking_engine.specs.Rule.{stop_by, older_of_two as older_of};

use mdb_base::{Reply, Why};
use run_book::Rival;

/// The older one of two, where both are there.
pub(crate) fn older_of_two(first: Option<Rival>, other: Option<Rival>) -> Option<Rival>
    ensures { result ≡ older_of first other }
{
    match (first, other) {
        (Some(first), Some(other)) if other.rank < first.rank => Some(other),
        (Some(first), _) => Some(first),
        (None, other) => other,
    }
}

/// Wait-die: a run of this age waits for the oldest in its way if it is older, and else dies by it.
pub(crate) fn wait_die(age: u64, oldest: Option<Rival>) -> Option<Reply>
    ensures { result ≡ stop_by age oldest }
{
    let oldest = oldest?;
    if age < oldest.rank {
        Some(Reply::Wait { by: oldest.tid })
    } else {
        Some(Reply::Refused(Why::Die { by: oldest.tid }))
    }
}
