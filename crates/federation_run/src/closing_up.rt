//! How the hosts of a run are taken out of their seats.
ghost use Rattle.std.specs.Prelude.{◌≡◌, ◌≤◌, ◌<◌, ◌+◌, [], length, map, slice_get, vec_len, vec_capacity};
ghost use Rattle.federation_run.specs.Lefts.{AreBack, AreHeldAt, IsTakenOut};

use crate::lefts::SiteLeft;
use crate::seats::Seat;
use fed_hosts::{Plan, SiteParts};
use journal_disk::Disk;

/// Takes a host out of its seat, or the disk that sits there: the disk goes back behind the others.
fn close_seat<D: Disk, N: Plan>(seat: Seat<D, N>, disks: &mut Vec<D>, lefts: &mut Vec<SiteLeft>)
    requires disks { vec_len disks.old < vec_capacity disks.old }
    requires few { vec_len disks.old ≤ 8 }
    requires lefts { vec_len lefts.old < vec_capacity lefts.old }
    ensures out { IsTakenOut D.tells D.seen N.sites N.rings seat (map D.seen disks.old.items) (map D.seen disks.new.items) lefts.old.items lefts.new.items }
    ensures count { length disks.new.items ≡ length disks.old.items + 1 }
    ensures grown { length lefts.new.items ≤ length lefts.old.items + 1 }
    ensures disks { vec_capacity disks.new ≡ vec_capacity disks.old }
    ensures lefts { vec_capacity lefts.new ≡ vec_capacity lefts.old }
{
    match seat {
        Seat::Idle(disk) => disks.push_reserved(disk),
        Seat::Hosted(host) => {
            let SiteParts {
                dbms,
                disk,
                lines,
                sent,
                ends,
                failed,
            } = host.into_inner().finish();
            lefts.push_reserved(SiteLeft {
                actor: disks.len() as u8,
                dbms,
                lines,
                sent,
                ends,
                failed,
            });
            disks.push_reserved(disk);
        }
    }
}

/// Takes all hosts out of their seats, which are those of the actors 8 to 1, in this order: their disks go back to their places behind
/// that of the coordinator. It takes no memory.
#[tactic(none)]
pub(crate) fn close_all<D: Disk, N: Plan>(
    seats: Vec<Seat<D, N>>,
    disks: &mut Vec<D>,
    lefts: &mut Vec<SiteLeft>,
)
    requires seats { length seats.items ≡ 8 }
    requires one { length disks.old.items ≡ 1 }
    requires room { 9 ≤ vec_capacity disks.old }
    requires none { lefts.old.items ≡ [] }
    requires lefts { 8 ≤ vec_capacity lefts.old }
    ensures nine { length disks.new.items ≡ 9 }
    ensures first { slice_get (map D.seen disks.new.items) 0 ≡ slice_get (map D.seen disks.old.items) 0 }
    ensures held { AreHeldAt D.tells N.sites N.rings (map D.seen disks.new.items) lefts.new.items }
    ensures back { AreBack D.seen seats.items (map D.seen disks.new.items) }
{
    let mut taken = seats;
    while taken.len() > 0 {
        let seat = taken.take_last();
        close_seat(seat, disks, lefts);
    }
}
