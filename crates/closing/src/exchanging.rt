//! The steps in which actors send to one another: decisions that are sent again, and inquiries.
ghost use Rattle.std.specs.Prelude.{IfErr, OnOk, IsTrue, map};
ghost use Rattle.fed_rules.specs.Closing.{inquire as inquired, send_again as sent_again};
ghost use Rattle.fed_world.specs.Faults.{CountsTell};
ghost use Rattle.fed_world.specs.Worlds.{SomeStory, Stands};
ghost use Rattle.closing.specs.Towards.{FallsShort, Reaches, WillFit};
ghost use Rattle.closing.specs.Steps.{asks_about, asks_all, deliver_all, sent_for};

use crate::actors::SiteTids;
use crate::delivering::{deliver, give_sent, take_sent};
use crate::sent::last_places;
use fed_rules::{Command, Place};
use fed_world::{World, WorldErr};
use journal_disk::Disk;
use mdb_base::{SiteId, Tid};
use std::alloc::Global;

/// The messages at these places are delivered, one after another.
fn deliver_each<D: Disk>(
    alloc: Global,
    world: &mut World,
    disks: &mut Vec<D>,
    places: &[Place],
) -> Result<(), WorldErr>
    requires told { IsTrue D.tells }
    requires stood { SomeStory (Stands D.tells world.old (map D.seen disks.old.items)) (WillFit (deliver_all places.now)) }
    ensures done { OnOk result (Reaches D.seen D.tells world.old disks.old.items world.new disks.new.items (deliver_all places.now)) }
    ensures failed { IfErr result (FallsShort D.seen D.tells world.old disks.old.items world.new disks.new.items (deliver_all places.now)) }
    ensures cause { CountsTell result (map D.seen disks.old.items) (map D.seen disks.new.items) }
{
    for place in places {
        deliver(alloc, world, disks, *place)?;
    }
    Ok(())
}

/// A decision is sent again, and each of its messages is delivered.
fn send_again<D: Disk>(
    alloc: Global,
    world: &mut World,
    disks: &mut Vec<D>,
    tid: Tid,
) -> Result<(), WorldErr>
    requires told { IsTrue D.tells }
    requires stood { SomeStory (Stands D.tells world.old (map D.seen disks.old.items)) (WillFit (λ session. sent_again session tid)) }
    ensures done { OnOk result (Reaches D.seen D.tells world.old disks.old.items world.new disks.new.items (λ session. sent_again session tid)) }
    ensures failed { IfErr result (FallsShort D.seen D.tells world.old disks.old.items world.new disks.new.items (λ session. sent_again session tid)) }
    ensures cause { CountsTell result (map D.seen disks.old.items) (map D.seen disks.new.items) }
{
    world.apply(alloc, disks, Command::Again(tid))?;
    let Ok(places) = last_places(alloc, world) else {
        return Err(WorldErr::Memory);
    };
    deliver_each(alloc, world, disks, &places)
}

/// A site asks about an attempt, and is given the answer.
fn inquire<D: Disk>(
    alloc: Global,
    world: &mut World,
    disks: &mut Vec<D>,
    site: SiteId,
    tid: Tid,
) -> Result<(), WorldErr>
    requires told { IsTrue D.tells }
    requires stood { SomeStory (Stands D.tells world.old (map D.seen disks.old.items)) (WillFit (λ session. inquired session site tid)) }
    ensures done { OnOk result (Reaches D.seen D.tells world.old disks.old.items world.new disks.new.items (λ session. inquired session site tid)) }
    ensures failed { IfErr result (FallsShort D.seen D.tells world.old disks.old.items world.new disks.new.items (λ session. inquired session site tid)) }
    ensures cause { CountsTell result (map D.seen disks.old.items) (map D.seen disks.new.items) }
{
    world.apply(alloc, disks, Command::Ask { site, tid })?;
    take_sent(alloc, world, disks)?;
    give_sent(alloc, world, disks)
}

/// A site asks about each of these attempts.
fn ask_about<D: Disk>(
    alloc: Global,
    world: &mut World,
    disks: &mut Vec<D>,
    site: SiteId,
    tids: &[Tid],
) -> Result<(), WorldErr>
    requires told { IsTrue D.tells }
    requires stood { SomeStory (Stands D.tells world.old (map D.seen disks.old.items)) (WillFit (asks_about site tids.now)) }
    ensures done { OnOk result (Reaches D.seen D.tells world.old disks.old.items world.new disks.new.items (asks_about site tids.now)) }
    ensures failed { IfErr result (FallsShort D.seen D.tells world.old disks.old.items world.new disks.new.items (asks_about site tids.now)) }
    ensures cause { CountsTell result (map D.seen disks.old.items) (map D.seen disks.new.items) }
{
    for tid in tids {
        inquire(alloc, world, disks, site, *tid)?;
    }
    Ok(())
}

/// Each of these decisions is sent again, and its messages are delivered.
pub(crate) fn send_each<D: Disk>(
    alloc: Global,
    world: &mut World,
    disks: &mut Vec<D>,
    tids: &[Tid],
) -> Result<(), WorldErr>
    requires told { IsTrue D.tells }
    requires stood { SomeStory (Stands D.tells world.old (map D.seen disks.old.items)) (WillFit (sent_for tids.now)) }
    ensures done { OnOk result (Reaches D.seen D.tells world.old disks.old.items world.new disks.new.items (sent_for tids.now)) }
    ensures failed { IfErr result (FallsShort D.seen D.tells world.old disks.old.items world.new disks.new.items (sent_for tids.now)) }
    ensures cause { CountsTell result (map D.seen disks.old.items) (map D.seen disks.new.items) }
{
    for tid in tids {
        send_again(alloc, world, disks, *tid)?;
    }
    Ok(())
}

/// Each of these sites asks about its attempts.
pub(crate) fn ask_each<D: Disk>(
    alloc: Global,
    world: &mut World,
    disks: &mut Vec<D>,
    sites: &[SiteTids],
) -> Result<(), WorldErr>
    requires told { IsTrue D.tells }
    requires stood { SomeStory (Stands D.tells world.old (map D.seen disks.old.items)) (WillFit (asks_all sites.now)) }
    ensures done { OnOk result (Reaches D.seen D.tells world.old disks.old.items world.new disks.new.items (asks_all sites.now)) }
    ensures failed { IfErr result (FallsShort D.seen D.tells world.old disks.old.items world.new disks.new.items (asks_all sites.now)) }
    ensures cause { CountsTell result (map D.seen disks.old.items) (map D.seen disks.new.items) }
{
    for at in sites {
        ask_about(alloc, world, disks, at.site, at.tids.as_slice())?;
    }
    Ok(())
}
