//! What no clause says of a run: that hosts are in their locks at the same time, that they take packets while the threads run, and that each
//! transaction is begun through its host. The gate of a test holds some calls until it has seen others; where these don't come it goes on
//! after its limit, and the test fails.
ghost use Rattle.std.specs.Prelude.{◌<◌, IfSome};

use super::runs::{SIX, ran};
use mdb_top::Gate;
use std::alloc::Global;
use std::sync::atomic::{AtomicU64, Ordering};
use std::test::Fail;
use std::thread;

/// How often a gate looks at most before it goes on.
const LIMIT: u32 = 100_000_000;

/// Waits until this is at least so much, and answers whether it was.
fn comes(seen: &AtomicU64, least: u64) -> bool {
    for _ in 0..LIMIT {
        if seen.load(Ordering::SeqCst) >= least {
            return true;
        }
        thread::yield_now();
    }
    false
}

/// Holds the first call inside each of two sites' locks until the first one inside the other's was seen.
#[derive(Drop)]
struct TwoInside {
    first: AtomicU64,
    second: AtomicU64,
    missed: AtomicU64,
}

impl TwoInside {
    fn met(&self, own: &AtomicU64, other: &AtomicU64) {
        if own.fetch_add(1, Ordering::SeqCst) == 0 && !comes(other, 1) {
            self.missed.store(1, Ordering::SeqCst);
        }
    }
}

impl Gate for TwoInside {
    fn inside(&self, actor: u8, _event: u32) {
        match actor {
            1 => self.met(&self.first, &self.second),
            2 => self.met(&self.second, &self.first),
            _ => {}
        }
    }
}

#[test]
fn two_sites_are_in_their_locks_at_once(rt: HostRuntime) -> Result<(), Fail> {
    let scenario = "site 1 locking nothing
site 2 timestamp abort
local 1 1 get:1 add:1:0:1
local 2 2 get:1 add:1:0:1
clients 2
";
    let gate = TwoInside {
        first: AtomicU64::new(0),
        second: AtomicU64::new(0),
        missed: AtomicU64::new(0),
    };
    let (status, output) = ran(&rt, scenario, &gate)?;
    assert_eq!(rt; status, 0, "{output}");
    assert!(rt; gate.first.load(Ordering::SeqCst) > 0);
    assert!(rt; gate.second.load(Ordering::SeqCst) > 0);
    assert_eq!(rt; gate.missed.load(Ordering::SeqCst), 0);
    Ok(())
}

/// Holds the site's calls before its first line until the coordinator has made one and is called again, and those of the coordinator until
/// the site has made one and is called again. So the site takes the packet from its ring while the threads run.
#[derive(Drop)]
struct OneAfterAnother {
    coordinator: AtomicU64,
    site: AtomicU64,
    missed: AtomicU64,
}

impl OneAfterAnother {
    /// Holds a call until this was seen. After one that waited in vain it holds none.
    fn holds(&self, seen: &AtomicU64) {
        if self.missed.load(Ordering::SeqCst) == 0 && !comes(seen, 1) {
            self.missed.store(1, Ordering::SeqCst);
        }
    }
}

impl Gate for OneAfterAnother {
    fn inside(&self, actor: u8, event: u32) {
        if actor == 0 && event > 0 {
            self.coordinator.store(1, Ordering::SeqCst);
            self.holds(&self.site);
        }
        if actor == 1 && event == 0 {
            self.holds(&self.coordinator);
        }
        if actor == 1 && event > 0 {
            self.site.store(1, Ordering::SeqCst);
        }
    }
}

#[test]
fn a_site_takes_a_packet_while_the_threads_run(rt: HostRuntime) -> Result<(), Fail> {
    let gate = OneAfterAnother {
        coordinator: AtomicU64::new(0),
        site: AtomicU64::new(0),
        missed: AtomicU64::new(0),
    };
    let (status, output) = ran(&rt, "site 1 locking nothing\nglobal 1 1/set:1:1\n", &gate)?;
    assert_eq!(rt; status, 0, "{output}");
    assert_eq!(rt; gate.coordinator.load(Ordering::SeqCst), 1);
    assert_eq!(rt; gate.site.load(Ordering::SeqCst), 1);
    assert_eq!(rt; gate.missed.load(Ordering::SeqCst), 0);
    Ok(())
}

/// How many events of each actor are recorded.
const EVENTS: u32 = 65_536;

/// Records which events of the coordinator and of the sites 1 to 3 it saw, 64 to a word.
#[derive(Drop)]
struct Recorded {
    seen: Vec<AtomicU64>,
}

/// Where an event is recorded: its word and its bit.
fn place_of(actor: u8, event: u32) -> Option<(usize, u32)>
    ensures { IfSome result (λ place. place.1 < 64) }
{
    if actor > 3 || event >= EVENTS {
        return None;
    }
    let word = u32::from(actor) * (EVENTS / 64) + event / 64;
    Some((word as usize, event % 64))
}

impl Recorded {
    fn new(alloc: Global) -> Result<Recorded, Fail> {
        let mut seen = Vec::new(alloc);
        for _ in 0..4 * (EVENTS / 64) {
            seen.push(AtomicU64::new(0))?;
        }
        Ok(Recorded { seen })
    }

    /// Whether the event was seen.
    fn saw(&self, actor: u8, event: u32) -> bool {
        match place_of(actor, event) {
            Some((word, bit)) => match self.seen.get(word) {
                Some(bits) => bits.load(Ordering::SeqCst) & (1_u64 << bit) > 0,
                None => false,
            },
            None => false,
        }
    }
}

impl Gate for Recorded {
    fn inside(&self, actor: u8, event: u32) {
        if let Some((word, bit)) = place_of(actor, event) {
            if let Some(bits) = self.seen.get(word) {
                bits.fetch_or(1_u64 << bit, Ordering::SeqCst);
            }
        }
    }
}

/// The actor of a command of the six transactions, of which 4, 5 and 6 are local to the sites 1, 2 and 3.
fn actor_of(command: &str) -> u8 {
    let (verb, rest) = match command.split_once(' ') {
        Some(parts) => parts,
        None => return 0,
    };
    let first = match rest.split_once(' ') {
        Some((first, _)) => first,
        None => rest,
    };
    let named = first.parse::<u8>().unwrap_or(0);
    match verb {
        "begin" | "step" | "commit" | "abort" | "fate" => named.saturating_sub(3),
        "give" | "ask" | "drop" | "halt" | "trip" | "back" => named,
        _ => 0,
    }
}

/// Which line of its actor the first one with this command is, counted from 0.
fn line_of(output: &str, wanted: &str) -> Option<(u8, u32)> {
    let actor = actor_of(wanted);
    let mut before: u32 = 0;
    for line in output.lines() {
        if let Some((command, _)) = line.split_once(" => ") {
            if command == wanted {
                return Some((actor, before));
            }
            if actor_of(command) == actor {
                before = before.saturating_add(1);
            }
        }
    }
    None
}

#[test]
fn each_transaction_is_begun_through_its_host(rt: HostRuntime) -> Result<(), Fail> {
    let gate = Recorded::new(rt.alloc())?;
    let scenario = format!(in rt.alloc(); "{SIX}clients 6\n")?;
    let (status, output) = ran(&rt, &scenario, &gate)?;
    assert_eq!(rt; status, 0, "{output}");
    for command in ["go 1", "go 2", "go 3", "begin 4", "begin 5", "begin 6"] {
        match line_of(&output, command) {
            Some((actor, event)) => assert!(rt; gate.saw(actor, event), "{command} {output}"),
            None => panic!(rt; "{command} {output}"),
        }
    }
    Ok(())
}
