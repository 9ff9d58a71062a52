//! How what the hosts left becomes a world.
ghost use Rattle.std.specs.Prelude.{ℕ, ◌≡◌, Bool, IfErr, IfOk, List};
ghost use Rattle.journal_disk.specs.Disk.{Seen};
ghost use Rattle.trace_merge.specs.Traces.{StampsRise};
ghost use Rattle.fed_world.specs.Gathering.{Gathers, GathersOn};
ghost use Rattle.fed_world.specs.FreshWorlds.{Stands};
ghost use Rattle.fed_world.specs.Worlds.{AnyStory, EachStory, SomeStory};
ghost use Rattle.federation_run.specs.Lefts.{IsLeft};
ghost use Rattle.federation_run.specs.Running.{HasRun, StopsBadly};
ghost use Rattle.federation_run.specs.Settling.{AreMerged, IsSurveyed, cores_of};
ghost use Rattle.federation_run.specs.Sorting.{AreSortable, AreSorted};

use crate::errors::RunErr;
use crate::laws::laws_hold;
use crate::lefts::{CoordLeft, Left, SiteLeft};
use crate::sorting::{Sorted, all_fit, are_placed, first_failed, sort_all, unstamped};
use crate::wiring::declared_sites;
use conservative_take::AnyPolicy;
use fed_hosts::Port;
use fed_rules::{Lines, Scenario, StampedLines};
use fed_world::{Channels, Cores, SiteCores, World};
use global_manager::GlobalManager;
use mdb_base::Memory;
use std::alloc::Global;
use trace_merge::merge_traces;

/// The first actor whose host failed, where what is left is that of the sites of the scenario.
fn survey(alloc: Global, scenario: &Scenario, left: &Left) -> Result<Option<u8>, Memory>
    ensures { IfOk result (IsSurveyed scenario.now left.now) }
{
    let declared = declared_sites(alloc, scenario)?;
    if !are_placed(declared.as_slice(), left.sites.as_slice()) {
        return Err(Memory);
    }
    all_fit(left.sites.as_slice(), left.coordinator.ports.as_slice());
    Ok(first_failed(&left.coordinator, left.sites.as_slice()))
}

/// What is left of all actors, sorted, and their lines by their stamps.
#[derive(Drop)]
struct Merged {
    sorted: Sorted,
    lines: Lines,
}

/// Sorts all that is left, with the coordinator's lines, and merges the lines by their stamps.
fn merge_all(
    alloc: Global,
    lines: StampedLines,
    lefts: Vec<SiteLeft>,
    ports: Vec<Port>,
) -> Result<Merged, Memory>
    requires sortable { AreSortable lefts.items ports.items }
    requires rise { StampsRise lines }
    ensures sorted { IfOk result (λ merged. AreSorted lines lefts.items ports.items merged.sorted) }
    ensures merged { IfOk result (λ merged. AreMerged merged.sorted.lists.items merged.lines) }
{
    let sorted = sort_all(alloc, lines, lefts, ports)?;
    let merged = merge_traces(alloc, sorted.lists.as_slice())?;
    let lines = unstamped(alloc, merged)?;
    Ok(Merged { sorted, lines })
}

/// The world of the coordinator and of what is sorted of the sites, with these lines.
#[tactic(none)]
fn gather_all(
    alloc: Global,
    scenario: Scenario,
    manager: GlobalManager<AnyPolicy>,
    merged: Merged,
) -> Result<World, Memory>
    requires { SomeStory (Gathers (cores_of scenario manager merged.sorted) merged.lines merged.sorted.channels.items) AnyStory }
    ensures lines { IfOk result (λ world. world.lines.items ≡ merged.lines) }
    ensures stands { IfOk result (λ world. (tells : Bool) (disks : List Seen)
        → EachStory (GathersOn tells disks (cores_of scenario manager merged.sorted) merged.lines merged.sorted.channels.items) (Stands tells world disks)) }
{
    let Merged { sorted, lines } = merged;
    let Sorted {
        cores,
        marks,
        channels,
        ..
    } = sorted;
    let cores = Cores {
        scenario,
        coordinator: manager,
        sites: SiteCores::of(cores),
        marks,
    };
    World::gather(alloc, cores, lines, Channels::of(channels))
}

/// The world of a run, from what its hosts left.
#[tactic(none)]
pub(crate) fn settle(alloc: Global, scenario: Scenario, left: Left) -> Result<World, RunErr>
    requires { (tells : Bool) × (counts : List ℕ) × (disks : List Seen) × IsLeft tells counts disks scenario left }
    ensures ran { IfOk result (λ world. (tells : Bool) (counts : List ℕ) (disks : List Seen) → IsLeft tells counts disks scenario left → HasRun tells counts disks scenario world) }
    ensures stopped { IfErr result (λ why. (tells : Bool) (counts : List ℕ) (disks : List Seen) → IsLeft tells counts disks scenario left → StopsBadly counts disks scenario why) }
{
    laws_hold();
    let Ok(failed) = survey(alloc, &scenario, &left) else {
        drop(left);
        return Err(RunErr::Memory);
    };
    let Left { coordinator, sites } = left;
    let CoordLeft {
        manager,
        lines,
        ports,
        ..
    } = coordinator;
    let Ok(merged) = merge_all(alloc, lines, sites, ports) else {
        drop(manager);
        return Err(RunErr::Memory);
    };
    if let Some(number) = failed {
        let Merged { sorted, lines } = merged;
        drop(sorted);
        drop(manager);
        return Err(RunErr::Disk { number, lines });
    }
    match gather_all(alloc, scenario, manager, merged) {
        Ok(world) => Ok(world),
        Err(_) => Err(RunErr::Memory),
    }
}
