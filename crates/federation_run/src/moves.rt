//! How far the hosts of a run got, as its threads see it.
//!
//! A thread that can't go on leaves its processor to the others. A host that found no message sleeps until it is woken, since something was
//! sent to it or its actor was found down, or until no client calls. A client yields, a bounded number of times: one whose transaction still
//! runs or waits, until its host rests; one that stands back, until no attempt is under way. A host rests where it made no move for a while,
//! and each host found nothing since it was woken last: one that was woken and didn't look yet doesn't rest. Nothing is proved of these
//! numbers, and none of a run's clauses rests on them.
use crate::wakes::{ACTORS, Sites, Wakes, noughts};
use std::sync::Wait;
use std::sync::atomic::{AtomicU64, Ordering};
use std::thread;

/// How often a client yields while its host makes no move, before it looks whether the host rests.
const PATIENCE: u32 = 256;

/// How often a client finds at most that its host doesn't rest, before it calls again.
const WATCHED: u32 = 256;

/// How often a client that stands back yields at most, before it begins beside the attempts that are under way.
const STANDS_BACK: u32 = 65_536;

/// How often a host that found no message sleeps or yields at most, before its next turn.
const IDLE: u32 = 4_096;

/// The count of moves of a host whose thread has ended is at least this. A run has far fewer moves.
const ENDED: u64 = 1 << 63;

/// Adds to a count.
fn raise(count: &AtomicU64, more: u64) {
    count.fetch_add(more, Ordering::SeqCst);
}

/// What the threads of a run tell each other. Each count is modulo 2^64.
#[derive(Drop)]
pub(crate) struct Moves {
    /// For each actor, the moves of its host: its turns that made a line, and, at a site, commits and aborts of local transactions.
    made: [AtomicU64; 9],
    /// How often the hosts were woken.
    wakes: Wakes,
    /// How many clients didn't begin to call yet. Where no further thread can be made, these wait for a task to end.
    waiting: AtomicU64,
    /// How many clients still call, or didn't begin to.
    clients: AtomicU64,
    /// How many clients have an attempt under way.
    under_way: AtomicU64,
}

impl Moves {
    /// No host has moved, no attempt is under way, and so many clients are to call.
    pub(crate) fn new(clients: u64) -> Moves {
        Moves {
            made: noughts(),
            wakes: Wakes::new(),
            waiting: AtomicU64::new(clients),
            clients: AtomicU64::new(clients),
            under_way: AtomicU64::new(0),
        }
    }

    /// How many moves the host of this actor made.
    fn of(&self, actor: u8) -> u64 {
        match self.made.get(usize::from(actor)) {
            Some(made) => made.load(Ordering::SeqCst),
            None => ENDED,
        }
    }

    fn add(&self, actor: u8, moves: u64) {
        match self.made.get(usize::from(actor)) {
            Some(made) => raise(made, moves),
            None => {}
        }
    }

    /// Wakes the host of this actor.
    pub(crate) fn wake(&self, actor: u8) {
        self.wakes.wake(actor);
    }

    /// Notes a turn of this site's host that made a line, and may have sent something to the coordinator.
    pub(crate) fn note_turn(&self, site: u8) {
        self.add(site, 1);
        self.wakes.wake(0);
    }

    /// Notes a turn of the coordinator's host that made a line, and sent something to these sites.
    pub(crate) fn note_coordinator_turn(&self, sites: Sites) {
        self.add(0, 1);
        self.wakes.wake_sites(sites);
    }

    /// Notes that a client had the coordinator send something to these sites.
    pub(crate) fn note_asked(&self, sites: Sites) {
        self.wakes.wake_sites(sites);
    }

    /// Notes that a local transaction of the site may have ended.
    pub(crate) fn note_local(&self, site: u8) {
        self.add(site, 1);
    }

    /// Notes that the thread of this actor's host takes no further turn.
    pub(crate) fn note_host_ended(&self, actor: u8) {
        self.add(actor, ENDED);
    }

    /// Notes that a client begins to call.
    pub(crate) fn note_client_begun(&self) {
        self.waiting.fetch_sub(1, Ordering::SeqCst);
    }

    /// Notes that a client makes no further call. Behind the last one all hosts are woken.
    pub(crate) fn note_client_ended(&self) {
        if self.clients.fetch_sub(1, Ordering::SeqCst) == 1 {
            self.wakes.wake_all();
        }
    }

    /// How often the host of this actor was woken.
    pub(crate) fn wakes(&self, actor: u8) -> u64 {
        self.wakes.of(actor)
    }

    /// Leaves the processor to others: the host of this actor sleeps where each client has begun to call, so that the last one that calls
    /// wakes it, and else yields.
    fn stand_by<R: Wait>(&self, rt: &R, actor: u8, seen: u64) {
        if self.waiting.load(Ordering::SeqCst) == 0 {
            self.wakes.sleep(rt, actor, seen);
        } else {
            thread::yield_now();
        }
    }

    /// Where no client calls: yields until the host of this actor was woken more often than that, or each host found nothing since it was
    /// woken last. Says whether the host was woken.
    fn await_last(&self, actor: u8, seen: u64) -> bool {
        for _ in 0..IDLE {
            if self.wakes(actor) != seen {
                return true;
            }
            if self.all_have_looked() {
                return false;
            }
            thread::yield_now();
        }
        true
    }

    /// Where the host of this actor found nothing, which had been woken so often before it looked: sleeps until it was woken more often than
    /// that, or no client calls. Says whether a further turn may find something.
    pub(crate) fn await_wake<R: Wait>(&self, rt: &R, actor: u8, seen: u64) -> bool {
        self.wakes.note_looked(actor, seen);
        for _ in 0..IDLE {
            if self.wakes(actor) != seen {
                return true;
            }
            if self.clients.load(Ordering::SeqCst) == 0 {
                return self.await_last(actor, seen);
            }
            self.stand_by(rt, actor, seen);
        }
        true
    }

    /// Yields until the host of this actor has moved since this was its count, and says whether it has.
    fn moves_from(&self, actor: u8, seen: u64) -> bool {
        for _ in 0..PATIENCE {
            thread::yield_now();
            if self.of(actor) != seen {
                return true;
            }
        }
        false
    }

    /// Whether the thread of this actor's host takes no further turn.
    pub(crate) fn has_ended(&self, actor: u8) -> bool {
        self.of(actor) >= ENDED
    }

    /// Whether the host of this actor found nothing since it was woken last, or takes no further turn.
    fn has_looked(&self, actor: u8) -> bool {
        self.wakes.has_looked(actor) || self.has_ended(actor)
    }

    /// Whether each host found nothing since it was woken last, or takes no further turn.
    fn all_have_looked(&self) -> bool {
        for actor in 0..ACTORS {
            if !self.has_looked(actor) {
                return false;
            }
        }
        true
    }

    /// Whether the host of this actor rests, or takes no further turn. It yields for a while until it knows.
    fn rests(&self, actor: u8) -> bool {
        let seen = self.of(actor);
        if seen >= ENDED {
            return true;
        }
        !self.moves_from(actor, seen) && self.all_have_looked()
    }

    /// Yields until the host of this actor rests, or takes no further turn.
    pub(crate) fn await_rest(&self, actor: u8) {
        for _ in 0..WATCHED {
            if self.rests(actor) {
                return;
            }
        }
    }

    /// Notes that a client has an attempt under way, beside those of others.
    pub(crate) fn note_begun(&self) {
        raise(&self.under_way, 1);
    }

    /// Notes that a client has no attempt under way any more.
    pub(crate) fn note_over(&self) {
        self.under_way.fetch_sub(1, Ordering::SeqCst);
    }

    /// Where no attempt is under way, one of the client is from now on. Says whether that is so.
    fn try_alone(&self) -> bool {
        self.under_way
            .compare_exchange(0, 1, Ordering::SeqCst, Ordering::SeqCst)
            .is_ok()
    }

    /// Yields until no attempt is under way, and notes then that one of the client is; behind the last yield, that it is beside others.
    pub(crate) fn begin_alone(&self) {
        for _ in 0..STANDS_BACK {
            if self.try_alone() {
                return;
            }
            thread::yield_now();
        }
        self.note_begun();
    }
}
