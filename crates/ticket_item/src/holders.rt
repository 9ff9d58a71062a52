//! Lists of attempts in rising order, in which an attempt is found by halving.
ghost use Rattle.std.specs.Prelude.{◌≡◌, ◌+◌, ◌<◌, ◌≤◌, false, not, ◌&&◌, ◌||◌, Some, IfSome, IfNone, if◌then◌else◌, length, vec_len};
ghost use Rattle.std.specs.Vec.{vec_capacity};
ghost use Rattle.mdb_base.specs.Names.{same_tid};
ghost use Rattle.mdb_base.specs.Words.{item_at};
ghost use Rattle.ticket_item.specs.Item.{count_before, is_among, IsByTid};

use mdb_base::Tid;

/// How many attempts of the list stand before this one.
fn place_of(tids: &[Tid], tid: Tid) -> usize
    requires { IsByTid tids.now }
    ensures within { result ≤ length tids.now }
    ensures count { result ≡ count_before tid tids.now }
{
    tids.partition_point(|other| *other < tid)
}

/// The place of the attempt in the list.
fn find(tids: &[Tid], tid: Tid) -> Option<usize>
    requires { IsByTid tids.now }
    ensures within { IfSome result (λ place. place < length tids.now) }
    ensures found { IfSome result (λ place. item_at tids.now place ≡ Some tid) }
    ensures absent { IfNone result (is_among tid tids.now ≡ false) }
{
    let place = place_of(tids, tid);
    if place < tids.len() && tids[place] == tid {
        Some(place)
    } else {
        None
    }
}

/// Puts an attempt that isn't in the list into its place.
pub fn put_in(tids: &mut Vec<Tid>, tid: Tid)
    requires room { vec_len tids.old < vec_capacity tids.old }
    requires order { IsByTid tids.old.items }
    requires apart { is_among tid tids.old.items ≡ false }
    ensures order { IsByTid tids.new.items }
    ensures members { (other : Tid) → is_among other tids.new.items ≡ (same_tid other tid || is_among other tids.old.items) }
    ensures count { vec_len tids.new ≡ vec_len tids.old + 1 }
    ensures room { vec_capacity tids.new ≡ vec_capacity tids.old }
{
    let place = place_of(tids, tid);
    let done: Result<_, _> = tids.insert(place, tid);
    done.unwrap();
}

/// Takes the attempt out of the list, where it stands there.
pub fn take_out(tids: &mut Vec<Tid>, tid: Tid)
    requires { IsByTid tids.old.items }
    ensures order { IsByTid tids.new.items }
    ensures others { (other : Tid) → is_among other tids.new.items ≡ (not (same_tid other tid) && is_among other tids.old.items) }
    ensures count { vec_len tids.new + (if is_among tid tids.old.items then 1 else 0) ≡ vec_len tids.old }
    ensures room { vec_capacity tids.new ≡ vec_capacity tids.old }
{
    if let Some(place) = find(tids, tid) {
        let _ = tids.remove(place);
    }
}
