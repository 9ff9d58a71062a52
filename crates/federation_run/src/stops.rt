//! The scripted stops of an actor.
ghost use Rattle.std.specs.Prelude.{◌≡◌, IfOk};
ghost use Rattle.federation_run.specs.Plans.{stops_in};

use fed_rules::{Scenario, StopLine};
use mdb_base::Memory;
use std::alloc::Global;

/// The scripted stops of an actor, in their order.
pub(crate) fn stops_of(
    alloc: Global,
    scenario: &Scenario,
    actor: u8,
) -> Result<Vec<StopLine>, Memory>
    ensures { IfOk result (λ stops. stops.items ≡ stops_in scenario.now actor) }
{
    let mut stops = Vec::new(alloc);
    for line in scenario.stops.as_slice() {
        if line.actor == actor {
            stops.push(*line)?;
        }
    }
    Ok(stops)
}
