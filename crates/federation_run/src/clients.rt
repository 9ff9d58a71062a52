//! The clients of a run.
ghost use Rattle.std.specs.Prelude.{◌≡◌, ◌≤◌, IfOk, length};

use crate::doors::{CoordLock, SiteLock};
use crate::drives::Drive;
use crate::hosts::Hosts;
use client_drivers::{DoorErr, Driven, drive_global, drive_local};
use fed_hosts::{Gate, Plan};
use fed_rules::{Scenario, TxLine};
use journal_disk::Disk;
use mdb_base::{Memory, SiteId, Tx};
use std::alloc::Global;
use std::sync::Wait;

/// A transaction that a client drives, local at its home or global where there is none.
#[derive(Clone, Copy, Debug, PartialEq, Eq, PartialOrd, Ord)]
pub(crate) struct ClientTx {
    pub(crate) tx: Tx,
    pub(crate) home: Option<SiteId>,
}

/// What clients are given: the transactions by rising number, how many clients there are, how often an attempt waits before it is given
/// up, and how many calls each client makes at most.
#[derive(Drop)]
pub(crate) struct Workload {
    pub(crate) all: Vec<ClientTx>,
    pub(crate) clients: u8,
    pub(crate) tries: u8,
    pub(crate) turns: u32,
}

fn client_tx_of(line: &TxLine) -> ClientTx
    ensures { result ≡ record { tx = line.now.tx; home = line.now.home } }
{
    ClientTx {
        tx: line.tx,
        home: line.home,
    }
}

/// What the clients of a scenario are given.
pub(crate) fn workload_of(alloc: Global, scenario: &Scenario) -> Result<Workload, Memory> {
    let mut all = Vec::new(alloc);
    for line in scenario.transactions.as_slice() {
        all.push(client_tx_of(line))?;
    }
    all.sort()?;
    Ok(Workload {
        all,
        clients: scenario.clients,
        tries: scenario.tries,
        turns: scenario.turns,
    })
}

/// Drives one transaction with what is left of a client's calls. A global one isn't driven where the coordinator takes no further turn.
fn drive<R: Wait, D: Disk, G: Gate, N: Plan>(
    rt: &R,
    hosts: &Hosts<D, N>,
    gate: &G,
    client_tx: ClientTx,
    tries: u8,
    left: u32,
) -> Result<Driven, DoorErr>
    ensures { IfOk result (λ driven. driven.used ≤ left) }
{
    match client_tx.home {
        Some(site) => {
            let Some(host) = hosts.site(site) else {
                return Ok(Driven {
                    used: 0,
                    committed: false,
                });
            };
            let mut door = SiteLock {
                rt,
                host,
                gate,
                drive: Drive::new(hosts.moves, site.0),
            };
            let driven = drive_local(&mut door, client_tx.tx, tries, left);
            door.drive.end();
            driven
        }
        None => {
            if hosts.moves.has_ended(0) {
                return Ok(Driven {
                    used: 0,
                    committed: false,
                });
            }
            let mut door = CoordLock {
                rt,
                host: hosts.coordinator,
                gate,
                drive: Drive::new(hosts.moves, 0),
            };
            let driven = drive_global(&mut door, client_tx.tx, tries, left);
            door.drive.end();
            driven
        }
    }
}

/// A client, counted from 0, drives its transactions, one after another: of all by rising number, counted from 0, those whose number
/// leaves the client's number over the clients. It stops where a host carries nothing out.
pub(crate) fn run_client<R: Wait, D: Disk, G: Gate, N: Plan>(
    rt: &R,
    workload: &Workload,
    hosts: &Hosts<D, N>,
    gate: &G,
    client: u8,
) {
    let mut left = workload.turns;
    let mut next = usize::from(client);
    for index in 0..workload.all.len() {
        if index == next {
            next = next.saturating_add(usize::from(workload.clients));
            match drive(rt, hosts, gate, workload.all[index], workload.tries, left) {
                Ok(driven) => left -= driven.used,
                Err(_) => return,
            }
        }
    }
}
