//! How a scenario runs in threads.
ghost use Rattle.std.specs.Prelude.{◌≡◌, ◌<◌, ◌≤◌, [], IfErr, IfOk, IsTrue, OnErr, length, map, vec_len, vec_capacity};
ghost use Rattle.fed_rules.specs.Plans.{IsScenario};
ghost use Rattle.fed_world.specs.Faults.{faults_of};
ghost use Rattle.fed_world.specs.SettingUp.{AreEmpty};
ghost use Rattle.federation_run.specs.Lefts.{HasLeft};
ghost use Rattle.federation_run.specs.Running.{EndsBadly, HasRun};
ghost use Rattle.federation_run.specs.Seats.{IsNamed};
ghost use Rattle.federation_run.specs.Wired.{AreWiredActors};

use crate::clients::{Workload, workload_of};
use crate::closing_up::close_all;
use crate::errors::RunErr;
use crate::lefts::{CoordLeft, Left, SiteLeft};
use crate::seats::{Seat, open_all};
use crate::settling::settle;
use crate::tasks::{Task, run_tasks, tasks_of};
use crate::wired::WiredActors;
use crate::wiring::{declared_sites, wire_actors};
use any_engine::AnyEngine;
use conservative_take::AnyPolicy;
use fed_hosts::{CoordHost, CoordParts, Gate, Plan, SiteHost};
use fed_rules::{Lines, Scenario};
use fed_world::{Cores, World, WorldErr};
use journal_disk::Disk;
use mdb_base::Memory;
use std::alloc::Global;
use std::marker::Brand;
use std::sync::{Mutex, Wait};
use std::thread::Threads;

/// All the memory that a run takes.
#[derive(Drop)]
struct Rooms<'h, D: Disk, N: Plan> {
    workload: Workload,
    tasks: Vec<Task>,
    seats: Vec<Seat<D, N>>,
    shared: Vec<Option<&'h Mutex<SiteHost<AnyEngine, D, N>>>>,
    sites: Vec<SiteLeft>,
}

/// Takes all the memory that a run of the scenario takes.
fn rooms_for<'h, D: Disk, N: Plan>(
    alloc: Global,
    scenario: &Scenario,
) -> Result<Rooms<'h, D, N>, Memory>
    ensures whole { IfOk result (λ rooms. IsScenario scenario.now) }
    ensures tasks { IfOk result (λ rooms. 0 < vec_len rooms.tasks) }
    ensures seats { IfOk result (λ rooms. (rooms.seats.items ≡ []) × (8 ≤ vec_capacity rooms.seats)) }
    ensures shared { IfOk result (λ rooms. (vec_len rooms.shared ≡ 0) × (8 ≤ vec_capacity rooms.shared)) }
    ensures sites { IfOk result (λ rooms. (rooms.sites.items ≡ []) × (8 ≤ vec_capacity rooms.sites)) }
{
    let declared = declared_sites(alloc, scenario)?;
    let workload = workload_of(alloc, scenario)?;
    let tasks = tasks_of(alloc, declared.as_slice(), scenario.clients)?;
    let seats = Vec::with_capacity(alloc, 8)?;
    let shared = Vec::with_capacity(alloc, 8)?;
    let sites = Vec::with_capacity(alloc, 8)?;
    Ok(Rooms {
        workload,
        tasks,
        seats,
        shared,
        sites,
    })
}

/// Runs the hosts of these actors in threads, each with the disk of its number, until every task is done. All memory is taken before the
/// first disk leaves its place, and each one is back there in the end. Without memory no disk is touched.
#[tactic(none)]
pub(crate) fn run_over<R: Threads + Wait + Sync, D: Disk + Send, G: Gate + Sync, N: Plan + Send>(
    rt: &R,
    alloc: Global,
    scenario: &Scenario,
    actors: WiredActors,
    disks: &mut Vec<D>,
    gate: &G,
) -> Result<Left, Memory>
    requires told { IsTrue D.tells }
    requires named { IsNamed scenario.now (faults_of (map D.seen disks.old.items)) actors N.sites N.coordinator N.rings }
    requires actors { AreWiredActors D.tells (map D.seen disks.old.items) scenario.now actors }
    ensures left { IfOk result (HasLeft D.tells scenario.now N.sites N.coordinator N.rings (map D.seen disks.old.items) (map D.seen disks.new.items)) }
    ensures untouched { OnErr result (disks.new.items ≡ disks.old.items) }
{
    let Rooms {
        workload,
        mut tasks,
        mut seats,
        shared,
        mut sites,
    } = match rooms_for::<D, N>(alloc, scenario) {
        Ok(rooms) => rooms,
        Err(why) => {
            drop(actors);
            return Err(why);
        }
    };
    let WiredActors {
        manager,
        stops,
        ports,
        wired_sites,
    } = actors;
    open_all::<D, N>(alloc, disks, wired_sites, &mut seats);
    let first = disks.take_last();
    let host = Mutex::new(CoordHost::<AnyPolicy, D, N>::new(alloc, manager, first, stops, ports));
    run_tasks(
        rt,
        &workload,
        seats.as_slice(),
        &host,
        gate,
        &mut tasks,
        shared,
    );
    let CoordParts {
        manager,
        disk,
        lines,
        ports,
        failed,
    } = host.into_inner().finish();
    disks.push_reserved(disk);
    close_all(seats, disks, &mut sites);
    Ok(Left {
        coordinator: CoordLeft {
            manager,
            lines,
            ports,
            failed,
        },
        sites,
    })
}

/// Runs a scenario on nine empty disks in threads: a task for the coordinator, one for each declared site, and one for each client. Each
/// host lies behind a lock of its own, and messages go over rings with the scenario's scripts. The lines of all hosts by their stamps
/// (Lamport 1978) are right, and the world stands for them. Where a disk call fails, the others go on, and the error has the right lines
/// so far. Every disk is back in its place in the end. Want of memory is the one answer without a cause.
#[tactic(none)]
pub fn run_threads<R: Threads + Wait + Sync, D: Disk + Send, G: Gate + Sync>(
    rt: &R,
    alloc: Global,
    scenario: Scenario,
    disks: &mut Vec<D>,
    gate: &G,
) -> Result<World, RunErr>
    requires told { IsTrue D.tells }
    requires nine { length disks.old.items ≡ 9 }
    requires empty { AreEmpty (map D.seen disks.old.items) }
    ensures ran { IfOk result (HasRun D.tells (faults_of (map D.seen disks.old.items)) (map D.seen disks.new.items) scenario) }
    ensures failed { IfErr result (EndsBadly D.tells (map D.seen disks.old.items) (map D.seen disks.new.items) scenario) }
    ensures count { length disks.new.items ≡ 9 }
{
    let world = match World::new(alloc, scenario, disks) {
        Ok(world) => world,
        Err(WorldErr::Memory) => return Err(RunErr::Memory),
        Err(WorldErr::Disk { number }) => {
            return Err(RunErr::Disk {
                number,
                lines: Lines::of(Vec::new(alloc)),
            });
        }
    };
    let Cores {
        scenario,
        coordinator,
        sites,
        ..
    } = world.into_cores();
    let Ok(actors) = wire_actors(alloc, &scenario, coordinator, sites) else {
        return Err(RunErr::Memory);
    };
    match run_over::<R, D, G, Brand>(rt, alloc, &scenario, actors, disks, gate) {
        Ok(left) => settle(alloc, scenario, left),
        Err(_) => Err(RunErr::Memory),
    }
}
