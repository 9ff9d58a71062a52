//! The sites of a run in their seats, and the disks of the others.
ghost use Rattle.std.specs.Prelude.{◌≡◌, ◌≤◌, [], IsTrue, length, map, slice_get, vec_capacity};
ghost use mathlib.Core.List.{IsPrefix};
ghost use Rattle.federation_run.specs.Seats.{AreSeats, CanSeat, CanSeatAll, IsLastWired, IsSeat};

use crate::wired::WiredSite;
use any_engine::AnyEngine;
use fed_hosts::{Plan, SiteHost};
use journal_disk::Disk;
use std::alloc::Global;
use std::sync::Mutex;

/// The host of a declared site behind a lock of its own, or the disk of a site that isn't declared.
#[derive(Drop)]
pub(crate) enum Seat<D: Disk, N: Plan> {
    Hosted(Mutex<SiteHost<AnyEngine, D, N>>),
    Idle(D),
}

/// Whether the last wired site is that of this actor.
#[tactic(none)]
fn is_next(wired_sites: &Vec<WiredSite>, actor: u8) -> bool
    ensures { IsTrue result → IsLastWired actor wired_sites.now.items }
{
    match wired_sites.as_slice().last() {
        Some(wired) => wired.ends.site.0 == actor,
        None => false,
    }
}

/// The seat of an actor: its host begins with this disk, where the last wired site is its own, which is used up then.
fn seat_of<D: Disk, N: Plan>(
    alloc: Global,
    actor: u8,
    disk: D,
    wired_sites: &mut Vec<WiredSite>,
) -> Seat<D, N>
    requires told { IsTrue D.tells }
    requires opens { CanSeat D.tells N.sites N.rings actor (D.seen disk) wired_sites.old.items }
    ensures seat { IsSeat actor wired_sites.old.items disk result }
    ensures left { IsPrefix wired_sites.new.items wired_sites.old.items }
{
    if !is_next(wired_sites, actor) {
        return Seat::Idle(disk);
    }
    let WiredSite { dbms, stops, ends } = wired_sites.take_last();
    Seat::Hosted(Mutex::new(SiteHost::new(alloc, dbms, disk, stops, ends)))
}

/// Seats the actors 8 to 1, in this order, with their disks. It takes no memory.
pub(crate) fn open_all<D: Disk, N: Plan>(
    alloc: Global,
    disks: &mut Vec<D>,
    wired_sites: Vec<WiredSite>,
    seats: &mut Vec<Seat<D, N>>,
)
    requires told { IsTrue D.tells }
    requires nine { length disks.old.items ≡ 9 }
    requires none { seats.old.items ≡ [] }
    requires room { 8 ≤ vec_capacity seats.old }
    requires opens { CanSeatAll D.tells N.sites N.rings (map D.seen disks.old.items) wired_sites.items }
    ensures one { length disks.new.items ≡ 1 }
    ensures first { slice_get disks.new.items 0 ≡ slice_get disks.old.items 0 }
    ensures room { vec_capacity disks.new ≡ vec_capacity disks.old }
    ensures seats { AreSeats wired_sites.items disks.old.items seats.new.items }
{
    let mut waiting = wired_sites;
    while disks.len() > 1 {
        let disk = disks.take_last();
        let seat = seat_of(alloc, disks.len() as u8, disk, &mut waiting);
        seats.push_reserved(seat);
    }
}
