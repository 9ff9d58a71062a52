//! A coordinator that is reopened on the disk which another one left answers as the one that was never taken apart.
ghost use Rattle.std.specs.Prelude.{◌≡◌, IfOk, OnOk};
ghost use Rattle.journal_disk.specs.Disk.{no_bytes};
ghost use Rattle.journal_disk.specs.MemDisk.{mem_image};
ghost use Rattle.coord_core.specs.Found.{SomeJournal};
ghost use Rattle.actor_tests.specs.OfThree.{IsOfThree};

use crate::coordinator::{Deed, asks, does, manager_on, sites};
use coord_journal::CoordJournal;
use fed_messages::{Envelope, Packet, encode_to};
use fed_rules::{Answer, CoordStep, Sent};
use global_exec::{Always, TakePolicy};
use global_manager::{GlobalManager, StepErr};
use journal_disk::{Disk, MemDisk};
use mdb_base::Memory;
use presumptions::Participants;
use std::alloc::Global;
use std::test::Fail;
use usable_journals::is_usable_coordinator;

/// One attempt commits at two sites, a Checkpoint is written between its decision and its end, and another one is given up once it may be prepared.
const SESSION: [Deed; 16] = [
    Deed::Go(1),
    Deed::Did(1, 1),
    Deed::Ticket(1, 1, 1),
    Deed::Votes(1, 1, 1),
    Deed::Did(2, 1),
    Deed::Ticket(2, 1, 1),
    Deed::Go(2),
    Deed::Votes(2, 1, 1),
    Deed::Check,
    Deed::Acks(1, 1),
    Deed::Acks(2, 1),
    Deed::Did(1, 2),
    Deed::Ticket(1, 2, 2),
    Deed::Late(2),
    Deed::Acks(1, 2),
    Deed::Again(2),
];

/// What a coordinator is asked behind the stop: a start, the last votes, inquiries, what it sends again, and some acknowledgements; the rest of them
/// behind one more stop; and all of it behind a Checkpoint.
const QUESTIONS: [Deed; 23] = [
    Deed::Inquires(1, 1),
    Deed::Back,
    Deed::Votes(2, 1, 1),
    Deed::Votes(1, 2, 2),
    Deed::Inquires(1, 1),
    Deed::Inquires(2, 1),
    Deed::Inquires(1, 2),
    Deed::Again(1),
    Deed::Again(2),
    Deed::Acks(1, 1),
    Deed::Halt(0),
    Deed::Back,
    Deed::Again(1),
    Deed::Again(2),
    Deed::Acks(2, 1),
    Deed::Acks(1, 2),
    Deed::Check,
    Deed::Halt(0),
    Deed::Back,
    Deed::Again(1),
    Deed::Again(2),
    Deed::Inquires(1, 1),
    Deed::Inquires(2, 1),
];

// The bytes of a message to a site, which are others for each message.
fn spelled(sent: &Sent) -> Packet {
    encode_to(&Envelope {
        index: 0,
        stamp: 0,
        message: sent.message,
    })
}

// Whether the same messages go to the same sites in the same order.
fn are_same(some: &[Sent], others: &[Sent]) -> bool {
    for (one, other) in some.iter().zip(others) {
        if one.site != other.site || spelled(one) != spelled(other) {
            return false;
        }
    }
    some.len() == others.len()
}

// Whether a reopened coordinator answers and sends the same. For one that is reopened an attempt that no record names was never begun.
fn is_alike(old: &CoordStep, new: CoordStep) -> bool {
    let unnamed = matches!((&old.answer, &new.answer), (Answer::Idle, Answer::None));
    let answered = unnamed || old.answer == new.answer;
    answered && are_same(old.sends.as_slice(), new.sends.as_slice())
}

// A new coordinator carries the session out, or this trip stops it within it; then it is halted. Says whether the trip stopped it.
fn is_stopped<P: TakePolicy>(
    alloc: Global,
    manager: &mut GlobalManager<P>,
    disk: &mut MemDisk,
    trip: Deed,
) -> Result<bool, StepErr>
    requires { IsOfThree P.policy manager.old disk.old }
    ensures { IsOfThree P.policy manager.new disk.new }
{
    does(manager, alloc, disk, trip)?;
    for deed in &SESSION {
        does(manager, alloc, disk, *deed)?;
    }
    let stopped = manager.core().is_down();
    does(manager, alloc, disk, Deed::Halt(0))?;
    Ok(stopped)
}

fn put(steps: &mut Vec<CoordStep>, step: CoordStep) -> Result<(), Memory> {
    steps.push(step)?;
    Ok(())
}

// What the coordinator answers to the questions, and what it sends.
fn told<P: TakePolicy>(
    alloc: Global,
    manager: &mut GlobalManager<P>,
    disk: &mut MemDisk,
) -> Result<Vec<CoordStep>, StepErr>
    requires { IsOfThree P.policy manager.old disk.old }
{
    let mut steps = Vec::new(alloc);
    for deed in &QUESTIONS {
        let step = asks(manager, alloc, disk, *deed)?;
        put(&mut steps, step)?;
    }
    Ok(steps)
}

// Whether the coordinator tells the same as another one.
fn tells<P: TakePolicy>(
    alloc: Global,
    manager: &mut GlobalManager<P>,
    disk: &mut MemDisk,
    old: &[CoordStep],
) -> Result<bool, StepErr>
    requires { IsOfThree P.policy manager.old disk.old }
{
    for (deed, from_old) in QUESTIONS.iter().zip(old) {
        let step = asks(manager, alloc, disk, *deed)?;
        if !is_alike(from_old, step) {
            return Ok(false);
        }
    }
    Ok(old.len() == QUESTIONS.len())
}

// What a new coordinator tells behind the session and this trip.
fn told_behind(alloc: Global, trip: Deed) -> Result<Vec<CoordStep>, Fail> {
    let mut disk = MemDisk::new(alloc)?;
    let mut manager = manager_on(alloc, &disk, Always)?;
    let stopped = is_stopped(alloc, &mut manager, &mut disk, trip);
    let told = told(alloc, &mut manager, &mut disk);
    drop(manager);
    stopped?;
    Ok(told?)
}

// The session on this empty disk, with this trip. Says whether the trip stopped the coordinator.
fn leaves(alloc: Global, disk: &mut MemDisk, trip: Deed) -> Result<bool, Fail>
    requires { mem_image disk.old ≡ no_bytes }
{
    let mut manager = manager_on(alloc, disk, Always)?;
    let stopped = is_stopped(alloc, &mut manager, disk, trip);
    drop(manager);
    Ok(stopped?)
}

// The journal on this disk is usable as that of a coordinator of these sites.
fn is_found(alloc: Global, disk: &mut MemDisk, sites: &Participants) -> Result<(), Fail>
    ensures { OnOk result (SomeJournal (mem_image disk.new) sites.now) }
{
    disk.sync()?;
    let journal = CoordJournal::load(alloc, disk)?;
    let usable = is_usable_coordinator(alloc, sites, journal.records())?;
    if !usable {
        return Err(Fail::from("the journal isn't usable"));
    }
    Ok(())
}

// A coordinator of the three sites that is reopened on this disk.
fn reopened<P: TakePolicy>(
    alloc: Global,
    disk: &mut MemDisk,
    policy: P,
) -> Result<GlobalManager<P>, Fail>
    ensures { IfOk result (λ manager. IsOfThree P.policy manager disk.new) }
{
    let sites = sites(alloc)?;
    is_found(alloc, disk, &sites)?;
    let manager = GlobalManager::reopen(alloc, disk, sites, policy)?;
    Ok(manager)
}

// Whether one that is reopened behind the session and this trip tells this, and the trip stops the session or doesn't.
fn tells_behind(alloc: Global, trip: Deed, stops: bool, old: &[CoordStep]) -> Result<bool, Fail> {
    let mut disk = MemDisk::new(alloc)?;
    let stopped = leaves(alloc, &mut disk, trip)?;
    let mut manager = reopened(alloc, &mut disk, Always)?;
    let tells = tells(alloc, &mut manager, &mut disk, old);
    drop(manager);
    Ok(tells? && stopped == stops)
}

// Whether both tell the same behind this trip.
fn tell_alike(alloc: Global, trip: Deed, stops: bool) -> Result<bool, Fail> {
    let old = told_behind(alloc, trip)?;
    let alike = tells_behind(alloc, trip, stops, &old);
    drop(old);
    alike
}

/// Three stops behind each of 11 calls, and none behind a twelfth: an Initiation, a Commit and an Abort make 2 each, an End, which isn't forced, 1, and the
/// Checkpoint 3.
#[test]
fn a_reopened_coordinator_answers_alike(rt: HostRuntime) -> Result<(), Fail> {
    for calls in 1..=12_u32 {
        for cut in [0, 1, 65_535] {
            let trip = Deed::Trip(calls, cut);
            assert!(rt; tell_alike(rt.alloc(), trip, calls < 12)?, "{calls} {cut}");
        }
    }
    Ok(())
}
