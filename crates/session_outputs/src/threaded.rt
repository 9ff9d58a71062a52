//! A scenario that runs in threads: its hosts, then what closes the session, and then what finishes each transaction alone.
ghost use Rattle.std.specs.Prelude.{◌≡◌, IfErr, IfOk, OnOk, IsTrue, length, map};
ghost use Rattle.closing.specs.FreshTowards.{FallsShortWhere, ReachesWhere};
ghost use Rattle.fed_world.specs.Faults.{CountsTell};
ghost use Rattle.fed_world.specs.SettingUp.{AreEmpty};
ghost use Rattle.fed_world.specs.FreshWorlds.{Stands};
ghost use Rattle.fed_world.specs.Worlds.{SomeStory};
ghost use Rattle.session_outputs.specs.Ends.{CanEnd, ComesToEnd};
ghost use Rattle.session_outputs.specs.Runs.{run_commands};

use crate::replay_output::scenario_is_whole;
use closing::{close, finish_alone};
use closing_laws::{closed_sessions_rest, closing_is_bounded, finished_sessions_commit};
use fed_rules::{Lines, Scenario};
use fed_world::{World, WorldErr};
use federation_run::{Gate, RunErr, run_threads};
use journal_disk::Disk;
use mdb_base::Memory;
use progress_laws::ends_add_their_own;
use std::alloc::Global;
use std::sync::Wait;
use std::thread::Threads;

/// How a run ended.
#[derive(Drop)]
pub(crate) enum Ended {
    /// Each transaction is committed, and the session is at rest.
    Done(World),
    /// A call of the disk of this actor failed while the sites were set up or the hosts ran; these lines were made before.
    Stopped { number: u8, lines: Lines },
    /// It failed behind the lines of this world, while the session was closed or a transaction finished.
    Broken { number: u8, world: World },
}

/// Closes the session of a run, and finishes each transaction without a commit alone. After a refusal the lines made until then stand.
fn end<D: Disk>(alloc: Global, world: &mut World, disks: &mut Vec<D>) -> Result<(), WorldErr>
    requires told { IsTrue D.tells }
    requires stood { SomeStory (Stands D.tells world.old (map D.seen disks.old.items)) CanEnd }
    ensures ended { OnOk result (ReachesWhere D.seen D.tells world.old disks.old.items world.new disks.new.items CanEnd run_commands) }
    ensures failed { IfErr result (FallsShortWhere D.seen D.tells world.old disks.old.items world.new disks.new.items CanEnd run_commands) }
    ensures cause { CountsTell result (map D.seen disks.old.items) (map D.seen disks.new.items) }
{
    closing_is_bounded();
    closed_sessions_rest();
    scenario_is_whole(world.scenario());
    close(alloc, world, disks)?;
    finish_alone(alloc, world, disks)
}

/// Runs a scenario on nine empty disks to its end: its hosts in threads, then what closes the session, and then what finishes each
/// transaction without a commit alone. Where no disk call fails and there is memory, each transaction of the scenario is committed, once.
pub(crate) fn run_to_end<R: Threads + Wait + Sync, D: Disk + Send, G: Gate + Sync>(
    rt: &R,
    alloc: Global,
    scenario: Scenario,
    disks: &mut Vec<D>,
    gate: &G,
) -> Result<Ended, Memory>
    requires told { IsTrue D.tells }
    requires nine { length disks.old.items ≡ 9 }
    requires empty { AreEmpty (map D.seen disks.old.items) }
    ensures ended { IfOk result (ComesToEnd D.seen D.tells (map D.seen disks.old.items) (map D.seen disks.new.items) scenario) }
    ensures nine { length disks.new.items ≡ 9 }
{
    closed_sessions_rest();
    finished_sessions_commit();
    ends_add_their_own();
    scenario_is_whole(&scenario);
    let mut world = match run_threads(rt, alloc, scenario, disks, gate) {
        Ok(world) => world,
        Err(RunErr::Disk { number, lines }) => return Ok(Ended::Stopped { number, lines }),
        Err(RunErr::Memory) => return Err(Memory),
    };
    match end(alloc, &mut world, disks) {
        Ok(()) => Ok(Ended::Done(world)),
        Err(WorldErr::Disk { number }) => Ok(Ended::Broken { number, world }),
        Err(WorldErr::Memory) => Err(Memory),
    }
}
