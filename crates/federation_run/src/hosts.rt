//! The hosts of a run, as its threads share them.
ghost use Rattle.std.specs.Prelude.{◌≡◌, ◌≤◌, ◌+◌, length, vec_len, vec_capacity};

use crate::moves::Moves;
use crate::seats::Seat;
use crate::wakes::ACTORS;
use any_engine::AnyEngine;
use conservative_take::AnyPolicy;
use fed_hosts::{CoordHost, Plan, SiteHost};
use journal_disk::Disk;
use mdb_base::SiteId;
use std::sync::Mutex;

/// The hosts, each behind a lock of its own: the coordinator's, and those of the actors 8 to 1, in this order, where they are declared;
/// with what tells how far they got.
#[derive(Drop)]
pub(crate) struct Hosts<'s, 'h, 'm, D: Disk, N: Plan> {
    pub(crate) coordinator: &'h Mutex<CoordHost<AnyPolicy, D, N>>,
    pub(crate) sites: &'s [Option<&'h Mutex<SiteHost<AnyEngine, D, N>>>],
    pub(crate) moves: &'m Moves,
}

impl<'s, 'h, 'm, D: Disk, N: Plan> Hosts<'s, 'h, 'm, D, N> {
    /// The host of a site, where it is declared.
    pub(crate) fn site(&self, site: SiteId) -> Option<&'h Mutex<SiteHost<AnyEngine, D, N>>> {
        let index = usize::from(8u8.checked_sub(site.0)?);
        match self.sites.get(index) {
            Some(host) => *host,
            None => None,
        }
    }

    /// Notes of each site without a host that none takes turns for it.
    pub(crate) fn note_missing(&self) {
        for number in 1..ACTORS {
            if self.site(SiteId(number)).is_none() {
                self.moves.note_host_ended(number);
            }
        }
    }
}

/// The host that sits in this seat.
fn host_in<'a, D: Disk, N: Plan>(
    seat: &'a Seat<D, N>,
) -> Option<&'a Mutex<SiteHost<AnyEngine, D, N>>> {
    match seat {
        Seat::Hosted(host) => Some(host),
        Seat::Idle(_) => None,
    }
}

/// The hosts that sit in these seats, each in the place of its seat.
pub(crate) fn hosts_in<'a, D: Disk, N: Plan>(
    seats: &'a [Seat<D, N>],
    hosts: &mut Vec<Option<&'a Mutex<SiteHost<AnyEngine, D, N>>>>,
)
    requires { vec_len hosts.old + length seats.now ≤ vec_capacity hosts.old }
{
    for seat in seats {
        hosts.push_reserved(host_in(seat));
    }
}
