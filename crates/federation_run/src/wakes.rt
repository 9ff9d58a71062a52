//! How the hosts of a run sleep, and how they are woken.
//!
//! An idle host sleeps on the count of its wakes. Who wakes it raises that count first, and a host falls asleep only while it is the one that
//! it read before it looked, so no wake is lost. Nothing is proved of these numbers.
use fed_rules::Place;
use std::sync::Wait;
use std::sync::atomic::{AtomicU64, Ordering};

/// How many actors there are: the coordinator, and eight sites.
pub(crate) const ACTORS: u8 = 9;

/// A count of 0 for each actor.
pub(crate) fn noughts() -> [AtomicU64; 9] {
    [
        AtomicU64::new(0),
        AtomicU64::new(0),
        AtomicU64::new(0),
        AtomicU64::new(0),
        AtomicU64::new(0),
        AtomicU64::new(0),
        AtomicU64::new(0),
        AtomicU64::new(0),
        AtomicU64::new(0),
    ]
}

/// Some of the sites, each by its actor.
#[derive(Clone, Copy)]
pub(crate) struct Sites {
    among: [bool; 9],
}

impl Sites {
    /// Those that something was sent to.
    pub(crate) fn of(places: &[Place]) -> Sites {
        let mut among = [false; 9];
        for place in places {
            match among.get_mut(usize::from(place.site.0)) {
                Some(is_one) => *is_one = true,
                None => {}
            }
        }
        Sites { among }
    }

    fn has(&self, site: u8) -> bool {
        match self.among.get(usize::from(site)) {
            Some(is_one) => *is_one,
            None => false,
        }
    }
}

/// How often the hosts were woken. Each count is modulo 2^64.
#[derive(Drop)]
pub(crate) struct Wakes {
    /// For each actor, how often its host was woken.
    woken: [AtomicU64; 9],
    /// For each actor, how often its host had been woken when it last found nothing.
    looked: [AtomicU64; 9],
}

impl Wakes {
    /// No host was woken.
    pub(crate) fn new() -> Wakes {
        Wakes {
            woken: noughts(),
            looked: noughts(),
        }
    }

    /// How often the host of this actor was woken.
    pub(crate) fn of(&self, actor: u8) -> u64 {
        match self.woken.get(usize::from(actor)) {
            Some(woken) => woken.load(Ordering::SeqCst),
            None => 0,
        }
    }

    /// Wakes the host of this actor.
    pub(crate) fn wake(&self, actor: u8) {
        match self.woken.get(usize::from(actor)) {
            Some(woken) => {
                woken.fetch_add(1, Ordering::SeqCst);
                woken.wake_one();
            }
            None => {}
        }
    }

    /// Wakes the hosts of these sites.
    pub(crate) fn wake_sites(&self, sites: Sites) {
        for site in 1..ACTORS {
            if sites.has(site) {
                self.wake(site);
            }
        }
    }

    /// Wakes all hosts.
    pub(crate) fn wake_all(&self) {
        for actor in 0..ACTORS {
            self.wake(actor);
        }
    }

    /// Sleeps until the host of this actor was woken more often than that. It may wake for no reason.
    pub(crate) fn sleep<R: Wait>(&self, rt: &R, actor: u8, seen: u64) {
        match self.woken.get(usize::from(actor)) {
            Some(woken) => woken.park(rt, (seen % (1 << 32)) as u32),
            None => {}
        }
    }

    /// Notes that the host of this actor found nothing, which had been woken so often before it looked.
    pub(crate) fn note_looked(&self, actor: u8, seen: u64) {
        match self.looked.get(usize::from(actor)) {
            Some(looked) => looked.store(seen, Ordering::SeqCst),
            None => {}
        }
    }

    /// Whether the host of this actor found nothing since it was woken last.
    pub(crate) fn has_looked(&self, actor: u8) -> bool {
        match self.looked.get(usize::from(actor)) {
            Some(looked) => looked.load(Ordering::SeqCst) == self.of(actor),
            None => true,
        }
    }
}
