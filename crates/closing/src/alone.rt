//! The commands that finish each transaction without a commit alone.
ghost use Rattle.std.specs.Prelude.{◌≡◌, IfErr, IfOk, OnOk, IsTrue, map};
ghost use Rattle.fed_rules.specs.Closing as rules;
ghost use Rattle.fed_rules.specs.Closing.{finished_alone, sent_next};
ghost use Rattle.fed_world.specs.Faults.{CountsTell};
ghost use Rattle.fed_world.specs.FreshWorlds.{HasLines, Stands};
ghost use Rattle.fed_world.specs.Worlds.{EachStory, EachWhere, SomeStory};
ghost use Rattle.closing.specs.Alone.{AllCommit, CanAllCommit, CanFinish, all_alone, delivered_next, queue_after};
ghost use Rattle.closing.specs.FreshTowards.{FallsShort, FallsShortWhere, Reaches, ReachesWhere, WillFit};

use crate::delivering::take_sent;
use crate::reading::every_scenario_is_one;
use crate::sent::{last_places, sent_again};
use crate::unfinished::undone;
use closing_laws::{finished_sessions_commit, finishing_is_bounded};
use fed_rules::{Command, Place, Places, TxLine};
use fed_world::{World, WorldErr};
use journal_disk::Disk;
use mdb_base::{Memory, Step, Tx};
use std::alloc::Global;

/// Each step of a local transaction.
fn steps_alone<D: Disk>(
    alloc: Global,
    world: &mut World,
    disks: &mut Vec<D>,
    tx: Tx,
    steps: &[Step],
) -> Result<(), WorldErr>
    requires told { IsTrue D.tells }
    requires stood { SomeStory (Stands D.tells world.old (map D.seen disks.old.items)) (WillFit (λ scenario. rules.steps_alone tx steps.now)) }
    ensures done { OnOk result (Reaches D.seen D.tells world.old disks.old.items world.new disks.new.items (λ scenario. rules.steps_alone tx steps.now)) }
    ensures failed { IfErr result (FallsShort D.seen D.tells world.old disks.old.items world.new disks.new.items (λ scenario. rules.steps_alone tx steps.now)) }
    ensures cause { CountsTell result (map D.seen disks.old.items) (map D.seen disks.new.items) }
{
    for done in 0..steps.len() {
        let _ = done;
        world.apply(alloc, disks, Command::Step(tx))?;
    }
    Ok(())
}

/// A local transaction alone: begin, each step, commit.
fn local_alone<D: Disk>(
    alloc: Global,
    world: &mut World,
    disks: &mut Vec<D>,
    tx: Tx,
    steps: &[Step],
) -> Result<(), WorldErr>
    requires told { IsTrue D.tells }
    requires stood { SomeStory (Stands D.tells world.old (map D.seen disks.old.items)) (WillFit (λ scenario. rules.local_alone tx steps.now)) }
    ensures done { OnOk result (Reaches D.seen D.tells world.old disks.old.items world.new disks.new.items (λ scenario. rules.local_alone tx steps.now)) }
    ensures failed { IfErr result (FallsShort D.seen D.tells world.old disks.old.items world.new disks.new.items (λ scenario. rules.local_alone tx steps.now)) }
    ensures cause { CountsTell result (map D.seen disks.old.items) (map D.seen disks.new.items) }
{
    world.apply(alloc, disks, Command::Begin(tx))?;
    steps_alone(alloc, world, disks, tx, steps)?;
    world.apply(alloc, disks, Command::Commit(tx))
}

/// The places of what the coordinator just sent, where it took any of these.
fn sent_at(world: &World, answers: &[Place]) -> Result<Places, Memory>
    ensures { IfOk result (λ sent. EachStory (HasLines world.now) (λ scenario commands. sent ≡ sent_next scenario commands answers.now)) }
{
    if answers.is_empty() {
        return Ok(Places::none());
    }
    sent_again(world)
}

/// The message at this place is delivered; the places of what the coordinator sends at that.
fn deliver_next<D: Disk>(
    alloc: Global,
    world: &mut World,
    disks: &mut Vec<D>,
    place: Place,
) -> Result<Places, WorldErr>
    requires told { IsTrue D.tells }
    requires stood { SomeStory (Stands D.tells world.old (map D.seen disks.old.items)) (WillFit (delivered_next place)) }
    ensures sent { IfOk result (λ sent. EachWhere (Stands D.tells world.old (map D.seen disks.old.items)) (WillFit (delivered_next place)) (λ scenario commands. sent ≡ queue_after scenario place commands)) }
    ensures done { OnOk result (Reaches D.seen D.tells world.old disks.old.items world.new disks.new.items (delivered_next place)) }
    ensures failed { IfErr result (FallsShort D.seen D.tells world.old disks.old.items world.new disks.new.items (delivered_next place)) }
    ensures cause { CountsTell result (map D.seen disks.old.items) (map D.seen disks.new.items) }
{
    let command = Command::Give {
        site: place.site,
        place: place.place,
    };
    world.apply(alloc, disks, command)?;
    let Ok(answers) = sent_again(world) else {
        return Err(WorldErr::Memory);
    };
    take_sent(alloc, world, disks)?;
    match sent_at(world, answers.as_slice()) {
        Ok(sent) => Ok(sent),
        Err(_) => Err(WorldErr::Memory),
    }
}

/// A global transaction alone: each of its messages is delivered in the order of sending.
fn global_alone<D: Disk>(
    alloc: Global,
    world: &mut World,
    disks: &mut Vec<D>,
    tx: Tx,
    steps: &[Step],
) -> Result<(), WorldErr>
    requires told { IsTrue D.tells }
    requires stood { SomeStory (Stands D.tells world.old (map D.seen disks.old.items)) (WillFit (λ scenario. rules.global_alone scenario tx steps.now)) }
    ensures done { OnOk result (Reaches D.seen D.tells world.old disks.old.items world.new disks.new.items (λ scenario. rules.global_alone scenario tx steps.now)) }
    ensures failed { IfErr result (FallsShort D.seen D.tells world.old disks.old.items world.new disks.new.items (λ scenario. rules.global_alone scenario tx steps.now)) }
    ensures cause { CountsTell result (map D.seen disks.old.items) (map D.seen disks.new.items) }
{
    world.apply(alloc, disks, Command::Go(tx))?;
    let Ok(mut places) = last_places(alloc, world) else {
        return Err(WorldErr::Memory);
    };
    for next in 0..4 * steps.len() {
        if next >= places.len() {
            return Ok(());
        }
        let place = places[next];
        let sent = deliver_next(alloc, world, disks, place)?;
        let Ok(()) = places.extend_from_slice(sent.as_slice()) else {
            return Err(WorldErr::Memory);
        };
    }
    Ok(())
}

/// One transaction alone.
fn one_alone<D: Disk>(
    alloc: Global,
    world: &mut World,
    disks: &mut Vec<D>,
    line: &TxLine,
) -> Result<(), WorldErr>
    requires told { IsTrue D.tells }
    requires stood { SomeStory (Stands D.tells world.old (map D.seen disks.old.items)) (WillFit (λ scenario. rules.one_alone scenario line.now line.now.home)) }
    ensures done { OnOk result (Reaches D.seen D.tells world.old disks.old.items world.new disks.new.items (λ scenario. rules.one_alone scenario line.now line.now.home)) }
    ensures failed { IfErr result (FallsShort D.seen D.tells world.old disks.old.items world.new disks.new.items (λ scenario. rules.one_alone scenario line.now line.now.home)) }
    ensures cause { CountsTell result (map D.seen disks.old.items) (map D.seen disks.new.items) }
{
    match line.home {
        Some(_) => local_alone(alloc, world, disks, line.tx, line.program.steps()),
        None => global_alone(alloc, world, disks, line.tx, line.program.steps()),
    }
}

/// Each of these transactions alone.
fn each_alone<D: Disk>(
    alloc: Global,
    world: &mut World,
    disks: &mut Vec<D>,
    lines: &[TxLine],
) -> Result<(), WorldErr>
    requires told { IsTrue D.tells }
    requires stood { SomeStory (Stands D.tells world.old (map D.seen disks.old.items)) (WillFit (all_alone lines.now)) }
    ensures done { OnOk result (Reaches D.seen D.tells world.old disks.old.items world.new disks.new.items (all_alone lines.now)) }
    ensures failed { IfErr result (FallsShort D.seen D.tells world.old disks.old.items world.new disks.new.items (all_alone lines.now)) }
    ensures cause { CountsTell result (map D.seen disks.old.items) (map D.seen disks.new.items) }
{
    for line in lines {
        one_alone(alloc, world, disks, line)?;
    }
    Ok(())
}

/// Finishes each transaction that has no commit alone, by rising number, where every actor is up: a local one begins, does each step and
/// commits, and of a global one each message is delivered in the order of sending (this project's profile). Behind a session at rest, where
/// of no such transaction all attempts were begun, each transaction then has a commit, and the session is at rest. After want of memory or
/// a failed disk call the lines made until then stand.
pub fn finish_alone<D: Disk>(
    alloc: Global,
    world: &mut World,
    disks: &mut Vec<D>,
) -> Result<(), WorldErr>
    requires told { IsTrue D.tells }
    requires stood { SomeStory (Stands D.tells world.old (map D.seen disks.old.items)) CanFinish }
    ensures done { OnOk result (ReachesWhere D.seen D.tells world.old disks.old.items world.new disks.new.items CanFinish finished_alone) }
    ensures commits { OnOk result (SomeStory (Stands D.tells world.old (map D.seen disks.old.items)) CanAllCommit
        → EachStory (Stands D.tells world.new (map D.seen disks.new.items)) AllCommit) }
    ensures failed { IfErr result (FallsShortWhere D.seen D.tells world.old disks.old.items world.new disks.new.items CanFinish finished_alone) }
    ensures cause { CountsTell result (map D.seen disks.old.items) (map D.seen disks.new.items) }
{
    finishing_is_bounded();
    finished_sessions_commit();
    every_scenario_is_one(world.scenario());
    let Ok(lines) = undone(alloc, world) else {
        return Err(WorldErr::Memory);
    };
    each_alone(alloc, world, disks, &lines)
}
