//! The tasks of a run: one for the coordinator, one a site, and one a client.
ghost use Rattle.std.specs.Prelude.{◌+◌, ◌<◌, ◌≤◌, IfOk, length, vec_len, vec_capacity};

use crate::clients::{Workload, run_client};
use crate::hosts::{Hosts, hosts_in};
use crate::moves::Moves;
use crate::seats::Seat;
use crate::wakes::Sites;
use any_engine::AnyEngine;
use conservative_take::AnyPolicy;
use fed_hosts::{CoordHost, DoorErr, Gate, Plan, SiteHost};
use journal_disk::Disk;
use mdb_base::{Memory, SiteId};
use std::alloc::Global;
use std::sync::{Mutex, Wait};
use std::thread;
use std::thread::Threads;

/// What a thread of a run does.
#[derive(Clone, Copy, Debug, PartialEq, Eq)]
pub(crate) enum Task {
    Coordinator,
    Site(SiteId),
    /// The client of this number, counted from 0.
    Client(u8),
}

/// The tasks of a run of these sites with so many clients.
pub(crate) fn tasks_of(alloc: Global, sites: &[SiteId], clients: u8) -> Result<Vec<Task>, Memory>
    ensures { IfOk result (λ tasks. 0 < vec_len tasks) }
{
    let mut tasks = Vec::new(alloc);
    tasks.push(Task::Coordinator)?;
    for site in sites {
        tasks.push(Task::Site(*site))?;
    }
    for client in 0..clients {
        tasks.push(Task::Client(client))?;
    }
    Ok(tasks)
}

/// The turns of a site's own. They end at once where its host carries nothing out, and where no client calls and nothing is under way.
fn turn_site<R: Wait, D: Disk, G: Gate, N: Plan>(
    rt: &R,
    host: &Mutex<SiteHost<AnyEngine, D, N>>,
    gate: &G,
    turns: u32,
    moves: &Moves,
    site: SiteId,
) {
    for _ in 0..turns {
        let seen = moves.wakes(site.0);
        let made = host.lock(rt).turn(gate);
        match made {
            Ok(true) => moves.note_turn(site.0),
            Ok(false) => {
                if !moves.await_wake(rt, site.0, seen) {
                    return;
                }
            }
            Err(_) => return,
        }
    }
}

/// A turn of the coordinator's own: the sites that its line sent something to, where it made one.
fn coordinator_turn<R: Wait, D: Disk, G: Gate, N: Plan>(
    rt: &R,
    host: &Mutex<CoordHost<AnyPolicy, D, N>>,
    gate: &G,
) -> Result<Option<Sites>, DoorErr> {
    let mut host = host.lock(rt);
    if host.turn(gate)? {
        Ok(Some(Sites::of(host.last_sends())))
    } else {
        Ok(None)
    }
}

/// The turns of the coordinator's own. They end at once where its host carries nothing out, and where no client calls and nothing is under
/// way.
fn turn_coordinator<R: Wait, D: Disk, G: Gate, N: Plan>(
    rt: &R,
    host: &Mutex<CoordHost<AnyPolicy, D, N>>,
    gate: &G,
    turns: u32,
    moves: &Moves,
) {
    for _ in 0..turns {
        let seen = moves.wakes(0);
        match coordinator_turn(rt, host, gate) {
            Ok(Some(sites)) => moves.note_coordinator_turn(sites),
            Ok(None) => {
                if !moves.await_wake(rt, 0, seen) {
                    return;
                }
            }
            Err(_) => return,
        }
    }
}

/// Carries out a task.
fn run_task<R: Wait, D: Disk, G: Gate, N: Plan>(
    rt: &R,
    workload: &Workload,
    hosts: &Hosts<D, N>,
    gate: &G,
    task: Task,
) {
    match task {
        Task::Coordinator => {
            turn_coordinator(rt, hosts.coordinator, gate, workload.turns, hosts.moves);
            hosts.moves.note_host_ended(0);
        }
        Task::Site(site) => {
            if let Some(host) = hosts.site(site) {
                turn_site(rt, host, gate, workload.turns, hosts.moves, site);
            }
            hosts.moves.note_host_ended(site.0);
        }
        Task::Client(client) => {
            hosts.moves.note_client_begun();
            run_client(rt, workload, hosts, gate, client);
            hosts.moves.note_client_ended();
        }
    }
}

/// Carries out all tasks, each in a thread of its own, over the hosts that sit in these seats and the coordinator's.
pub(crate) fn run_tasks<
    'h,
    R: Threads + Wait + Sync,
    D: Disk + Send,
    G: Gate + Sync,
    N: Plan + Send,
>(
    rt: &R,
    workload: &Workload,
    seats: &'h [Seat<D, N>],
    coordinator: &'h Mutex<CoordHost<AnyPolicy, D, N>>,
    gate: &G,
    tasks: &mut Vec<Task>,
    sites: Vec<Option<&'h Mutex<SiteHost<AnyEngine, D, N>>>>,
)
    requires room { vec_len sites + length seats.now ≤ vec_capacity sites }
    requires some { 0 < vec_len tasks.old }
{
    let mut sites = sites;
    hosts_in(seats, &mut sites);
    let moves = Moves::new(u64::from(workload.clients));
    let hosts = Hosts {
        coordinator,
        sites: sites.as_slice(),
        moves: &moves,
    };
    hosts.note_missing();
    let threads = tasks.len();
    thread::for_each_mut(
        rt,
        tasks.as_mut_slice(),
        threads,
        &|_, task| {
            run_task(rt, workload, &hosts, gate, *task);
        },
    );
}
