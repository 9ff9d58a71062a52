//! Places in a list of doubts by rising attempt.
ghost use Rattle.std.specs.Prelude.{◌≡◌, ◌+◌, ◌<◌, ◌≤◌, None, is_some, IfSome, IfNone, length, vec_len, if◌then◌else◌};
ghost use Rattle.std.specs.Vec.{vec_capacity};
ghost use Rattle.mdb_base.specs.Words.{inserted, item_at};
ghost use Rattle.prepared_state.specs.Book.{IsByTid, count_before, doubt_about, others, stands_before};

use fed_rules::Doubt;
use mdb_base::Tid;

/// How many doubts are about attempts before this one.
fn place_of(doubts: &[Doubt], tid: Tid) -> usize
    requires { IsByTid doubts.now }
    ensures within { result ≤ length doubts.now }
    ensures count { result ≡ count_before tid doubts.now }
{
    doubts.partition_point(|doubt| doubt.tid < tid)
}

/// The place of the doubt about the attempt.
pub fn find(doubts: &[Doubt], tid: Tid) -> Option<usize>
    requires { IsByTid doubts.now }
    ensures within { IfSome result (λ place. place < length doubts.now) }
    ensures place { IfSome result (λ place. place ≡ count_before tid doubts.now) }
    ensures found { IfSome result (λ place. doubt_about tid doubts.now ≡ item_at doubts.now place) }
    ensures absent { IfNone result (doubt_about tid doubts.now ≡ None) }
{
    let place = place_of(doubts, tid);
    if place < doubts.len() && doubts[place].tid == tid {
        Some(place)
    } else {
        None
    }
}

/// Puts a doubt about another attempt in its place.
pub fn insert(doubts: &mut Vec<Doubt>, doubt: Doubt)
    requires room { vec_len doubts.old < vec_capacity doubts.old }
    requires order { IsByTid doubts.old.items }
    requires apart { doubt_about doubt.tid doubts.old.items ≡ None }
    ensures items { doubts.new.items ≡ inserted stands_before doubt doubts.old.items }
    ensures order { IsByTid doubts.new.items }
    ensures count { vec_len doubts.new ≡ vec_len doubts.old + 1 }
    ensures room { vec_capacity doubts.new ≡ vec_capacity doubts.old }
{
    let place = place_of(doubts, doubt.tid);
    let done: Result<_, _> = doubts.insert(place, doubt);
    done.unwrap();
}

/// Takes the doubt about the attempt out, and answers whether it was there.
pub fn take_out(doubts: &mut Vec<Doubt>, tid: Tid) -> bool
    requires { IsByTid doubts.old.items }
    ensures listed { result ≡ is_some (doubt_about tid doubts.old.items) }
    ensures items { doubts.new.items ≡ others tid doubts.old.items }
    ensures order { IsByTid doubts.new.items }
    ensures count { vec_len doubts.new + (if result then 1 else 0) ≡ vec_len doubts.old }
    ensures room { vec_capacity doubts.new ≡ vec_capacity doubts.old }
{
    match find(doubts, tid) {
        Some(place) => {
            let _ = doubts.remove(place);
            true
        }
        None => false,
    }
}
