//! What a step of closing reads off the world when it begins.
ghost use Rattle.closing.specs.Steps.{back_of, disarm_of, late_of};
ghost use Rattle.fed_rules.specs.Plans.{IsScenario};
ghost use Rattle.std.specs.Prelude.{◌≡◌, IfOk, map};

use fed_rules::{Command, Scenario};
use mdb_base::{Memory, Tid};
use std::alloc::Global;

/// A scenario keeps what every scenario does.
pub(crate) fn every_scenario_is_one(scenario: &Scenario)
    ensures { IsScenario scenario.now }
{
    let _ = &scenario.sites;
}

/// The commands that disarm these actors.
pub(crate) fn disarming(alloc: Global, actors: &[u8]) -> Result<Vec<Command>, Memory>
    ensures { IfOk result (λ commands. commands.items ≡ map disarm_of actors.now) }
{
    Ok(
        actors
            .iter()
            .map(|actor| Command::Trip {
                actor: *actor,
                calls: 0,
                cut: 0,
            })
            .collect(alloc)?,
    )
}

/// The commands that bring these actors up.
pub(crate) fn bringing_up(alloc: Global, actors: &[u8]) -> Result<Vec<Command>, Memory>
    ensures { IfOk result (λ commands. commands.items ≡ map back_of actors.now) }
{
    Ok(
        actors
            .iter()
            .map(|actor| Command::Back { actor: *actor })
            .collect(alloc)?,
    )
}

/// The commands that give these attempts up.
pub(crate) fn giving_up(alloc: Global, tids: &[Tid]) -> Result<Vec<Command>, Memory>
    ensures { IfOk result (λ commands. commands.items ≡ map late_of tids.now) }
{
    Ok(tids.iter().map(|tid| Command::Late(*tid)).collect(alloc)?)
}
