//! A message that is delivered: its site is given it, and what the site sends is taken.
ghost use Rattle.std.specs.Prelude.{IfErr, OnOk, IsTrue, map};
ghost use Rattle.fed_rules.specs.Closing.{deliver as delivered, taken};
ghost use Rattle.fed_world.specs.Faults.{CountsTell};
ghost use Rattle.fed_world.specs.Worlds.{SomeStory, Stands};
ghost use Rattle.closing.specs.Steps.{last_sends_given};
ghost use Rattle.closing.specs.Towards.{FallsShort, Reaches, WillFit};

use crate::carrying::carry_out;
use crate::sent::{gives, last_places, only_sent, takes};
use fed_rules::{Command, Place};
use fed_world::{World, WorldErr};
use journal_disk::Disk;
use std::alloc::Global;

/// What a site just sent is taken, where it may be several messages.
fn take_all<D: Disk>(alloc: Global, world: &mut World, disks: &mut Vec<D>) -> Result<(), WorldErr>
    requires told { IsTrue D.tells }
    requires stood { SomeStory (Stands D.tells world.old (map D.seen disks.old.items)) (WillFit taken) }
    ensures done { OnOk result (Reaches D.seen D.tells world.old disks.old.items world.new disks.new.items taken) }
    ensures failed { IfErr result (FallsShort D.seen D.tells world.old disks.old.items world.new disks.new.items taken) }
    ensures cause { CountsTell result (map D.seen disks.old.items) (map D.seen disks.new.items) }
{
    let Ok(places) = last_places(alloc, world) else {
        return Err(WorldErr::Memory);
    };
    let Ok(commands) = takes(alloc, &places) else {
        return Err(WorldErr::Memory);
    };
    carry_out(alloc, world, disks, &commands)
}

/// What a site just sent is taken. One message takes no list.
pub(crate) fn take_sent<D: Disk>(
    alloc: Global,
    world: &mut World,
    disks: &mut Vec<D>,
) -> Result<(), WorldErr>
    requires told { IsTrue D.tells }
    requires stood { SomeStory (Stands D.tells world.old (map D.seen disks.old.items)) (WillFit taken) }
    ensures done { OnOk result (Reaches D.seen D.tells world.old disks.old.items world.new disks.new.items taken) }
    ensures failed { IfErr result (FallsShort D.seen D.tells world.old disks.old.items world.new disks.new.items taken) }
    ensures cause { CountsTell result (map D.seen disks.old.items) (map D.seen disks.new.items) }
{
    match only_sent(world) {
        Some(place) => {
            let command = Command::Take {
                site: place.site,
                place: place.place,
            };
            carry_out(alloc, world, disks, &[command])
        }
        None => take_all(alloc, world, disks),
    }
}

/// What the coordinator just sent is given to its sites.
pub(crate) fn give_sent<D: Disk>(
    alloc: Global,
    world: &mut World,
    disks: &mut Vec<D>,
) -> Result<(), WorldErr>
    requires told { IsTrue D.tells }
    requires stood { SomeStory (Stands D.tells world.old (map D.seen disks.old.items)) (WillFit last_sends_given) }
    ensures done { OnOk result (Reaches D.seen D.tells world.old disks.old.items world.new disks.new.items last_sends_given) }
    ensures failed { IfErr result (FallsShort D.seen D.tells world.old disks.old.items world.new disks.new.items last_sends_given) }
    ensures cause { CountsTell result (map D.seen disks.old.items) (map D.seen disks.new.items) }
{
    let Ok(places) = last_places(alloc, world) else {
        return Err(WorldErr::Memory);
    };
    let Ok(commands) = gives(alloc, &places) else {
        return Err(WorldErr::Memory);
    };
    carry_out(alloc, world, disks, &commands)
}

/// The message at this place is given to its site, and what the site sends at that is taken.
pub(crate) fn deliver<D: Disk>(
    alloc: Global,
    world: &mut World,
    disks: &mut Vec<D>,
    place: Place,
) -> Result<(), WorldErr>
    requires told { IsTrue D.tells }
    requires stood { SomeStory (Stands D.tells world.old (map D.seen disks.old.items)) (WillFit (λ session. delivered session place)) }
    ensures done { OnOk result (Reaches D.seen D.tells world.old disks.old.items world.new disks.new.items (λ session. delivered session place)) }
    ensures failed { IfErr result (FallsShort D.seen D.tells world.old disks.old.items world.new disks.new.items (λ session. delivered session place)) }
    ensures cause { CountsTell result (map D.seen disks.old.items) (map D.seen disks.new.items) }
{
    let command = Command::Give {
        site: place.site,
        place: place.place,
    };
    world.apply(alloc, disks, command)?;
    take_sent(alloc, world, disks)
}
