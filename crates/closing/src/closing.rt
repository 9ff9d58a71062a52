//! The commands that close a session.
ghost use Rattle.std.specs.Prelude.{IfErr, OnOk, IsTrue, map};
ghost use Rattle.fed_rules.specs.Closing as rules;
ghost use Rattle.fed_rules.specs.Closing.{closed_in};
ghost use Rattle.fed_world.specs.Faults.{CountsTell};
ghost use Rattle.fed_world.specs.FreshWorlds as Fresh;
ghost use Rattle.fed_world.specs.Worlds.{EachStory, EachWhere, Rests, SomeStory, Stands};
ghost use Rattle.closing.specs.Steps.{CanClose, MayClose, MayStep};
ghost use Rattle.closing.specs.Towards.{FallsShort, FallsShortWhere, Reaches, ReachesWhere, WillFit};

use crate::actors::{armed_actors, clearing, doubtful, down_actors, known, undecided};
use crate::carrying::carry_out;
use crate::exchanging::{ask_each, send_each};
use crate::reading::{bringing_up, disarming, every_scenario_is_one, giving_up};
use fed_world::{World, WorldErr};
use journal_disk::Disk;
use resume_laws::{sessions_close_at_rest, sessions_close_shortly, sessions_stay_up};
use std::alloc::Global;

/// Each armed trip is disarmed.
fn disarm<D: Disk>(alloc: Global, world: &mut World, disks: &mut Vec<D>) -> Result<(), WorldErr>
    requires told { IsTrue D.tells }
    requires stood { SomeStory (Stands D.tells world.old (map D.seen disks.old.items)) (WillFit rules.disarm) }
    ensures done { OnOk result (Reaches D.seen D.tells world.old disks.old.items world.new disks.new.items rules.disarm) }
    ensures failed { IfErr result (FallsShort D.seen D.tells world.old disks.old.items world.new disks.new.items rules.disarm) }
    ensures cause { CountsTell result (map D.seen disks.old.items) (map D.seen disks.new.items) }
{
    let Ok(armed) = armed_actors(alloc, world) else {
        return Err(WorldErr::Memory);
    };
    let Ok(commands) = disarming(alloc, &armed) else {
        return Err(WorldErr::Memory);
    };
    carry_out(alloc, world, disks, &commands)
}

/// Each actor that is down comes back.
fn bring_up<D: Disk>(alloc: Global, world: &mut World, disks: &mut Vec<D>) -> Result<(), WorldErr>
    requires told { IsTrue D.tells }
    requires stood { SomeStory (Stands D.tells world.old (map D.seen disks.old.items)) (WillFit rules.bring_up) }
    ensures done { OnOk result (Reaches D.seen D.tells world.old disks.old.items world.new disks.new.items rules.bring_up) }
    ensures failed { IfErr result (FallsShort D.seen D.tells world.old disks.old.items world.new disks.new.items rules.bring_up) }
    ensures cause { CountsTell result (map D.seen disks.old.items) (map D.seen disks.new.items) }
{
    let Ok(down) = down_actors(alloc, world) else {
        return Err(WorldErr::Memory);
    };
    let Ok(commands) = bringing_up(alloc, &down) else {
        return Err(WorldErr::Memory);
    };
    carry_out(alloc, world, disks, &commands)
}

/// Each attempt that is known without a decision is given up.
fn give_up<D: Disk>(alloc: Global, world: &mut World, disks: &mut Vec<D>) -> Result<(), WorldErr>
    requires told { IsTrue D.tells }
    requires stood { SomeStory (Stands D.tells world.old (map D.seen disks.old.items)) (MayStep rules.give_up) }
    ensures done { OnOk result (ReachesWhere D.seen D.tells world.old disks.old.items world.new disks.new.items (MayStep rules.give_up) rules.give_up) }
    ensures failed { IfErr result (FallsShortWhere D.seen D.tells world.old disks.old.items world.new disks.new.items (MayStep rules.give_up) rules.give_up) }
    ensures cause { CountsTell result (map D.seen disks.old.items) (map D.seen disks.new.items) }
{
    let Ok(tids) = undecided(alloc, world) else {
        return Err(WorldErr::Memory);
    };
    let Ok(commands) = giving_up(alloc, &tids) else {
        return Err(WorldErr::Memory);
    };
    carry_out(alloc, world, disks, &commands)
}

/// At each site each live local transaction is aborted, and then each live subtransaction dropped.
fn clear<D: Disk>(alloc: Global, world: &mut World, disks: &mut Vec<D>) -> Result<(), WorldErr>
    requires told { IsTrue D.tells }
    requires stood { SomeStory (Stands D.tells world.old (map D.seen disks.old.items)) (MayStep rules.clear) }
    ensures done { OnOk result (ReachesWhere D.seen D.tells world.old disks.old.items world.new disks.new.items (MayStep rules.clear) rules.clear) }
    ensures failed { IfErr result (FallsShortWhere D.seen D.tells world.old disks.old.items world.new disks.new.items (MayStep rules.clear) rules.clear) }
    ensures cause { CountsTell result (map D.seen disks.old.items) (map D.seen disks.new.items) }
{
    let Ok(commands) = clearing(alloc, world) else {
        return Err(WorldErr::Memory);
    };
    carry_out(alloc, world, disks, &commands)
}

/// Each known attempt is ended.
fn end_known<D: Disk>(alloc: Global, world: &mut World, disks: &mut Vec<D>) -> Result<(), WorldErr>
    requires told { IsTrue D.tells }
    requires stood { SomeStory (Stands D.tells world.old (map D.seen disks.old.items)) (MayStep rules.end_known) }
    ensures done { OnOk result (ReachesWhere D.seen D.tells world.old disks.old.items world.new disks.new.items (MayStep rules.end_known) rules.end_known) }
    ensures failed { IfErr result (FallsShortWhere D.seen D.tells world.old disks.old.items world.new disks.new.items (MayStep rules.end_known) rules.end_known) }
    ensures cause { CountsTell result (map D.seen disks.old.items) (map D.seen disks.new.items) }
{
    let Ok(tids) = known(alloc, world) else {
        return Err(WorldErr::Memory);
    };
    send_each(alloc, world, disks, &tids)
}

/// Each doubt of each site is cleared.
fn ask_all<D: Disk>(alloc: Global, world: &mut World, disks: &mut Vec<D>) -> Result<(), WorldErr>
    requires told { IsTrue D.tells }
    requires stood { SomeStory (Stands D.tells world.old (map D.seen disks.old.items)) (MayStep rules.ask_all) }
    ensures done { OnOk result (ReachesWhere D.seen D.tells world.old disks.old.items world.new disks.new.items (MayStep rules.ask_all) rules.ask_all) }
    ensures failed { IfErr result (FallsShortWhere D.seen D.tells world.old disks.old.items world.new disks.new.items (MayStep rules.ask_all) rules.ask_all) }
    ensures cause { CountsTell result (map D.seen disks.old.items) (map D.seen disks.new.items) }
{
    let Ok(sites) = doubtful(alloc, world) else {
        return Err(WorldErr::Memory);
    };
    ask_each(alloc, world, disks, &sites)
}

/// Each step of closing in its turn.
fn each_step<D: Disk>(alloc: Global, world: &mut World, disks: &mut Vec<D>) -> Result<(), WorldErr>
    requires told { IsTrue D.tells }
    requires stood { SomeStory (Stands D.tells world.old (map D.seen disks.old.items)) MayClose }
    ensures done { OnOk result (ReachesWhere D.seen D.tells world.old disks.old.items world.new disks.new.items MayClose closed_in) }
    ensures failed { IfErr result (FallsShortWhere D.seen D.tells world.old disks.old.items world.new disks.new.items MayClose closed_in) }
    ensures cause { CountsTell result (map D.seen disks.old.items) (map D.seen disks.new.items) }
{
    disarm(alloc, world, disks)?;
    bring_up(alloc, world, disks)?;
    give_up(alloc, world, disks)?;
    clear(alloc, world, disks)?;
    end_known(alloc, world, disks)?;
    ask_all(alloc, world, disks)
}

/// Closes a session by the commands that this project's profile names, and by no others: each armed trip is disarmed, each actor that is down
/// comes back, each undecided attempt is given up, at each site what is live ends, each known attempt is ended, and each doubt is cleared;
/// attempts and sites in rising order. Behind that the session is at rest, whether it began with empty disks or goes on from disks. After want
/// of memory or a failed disk call the lines made until then stand.
pub fn close<D: Disk>(alloc: Global, world: &mut World, disks: &mut Vec<D>) -> Result<(), WorldErr>
    requires told { IsTrue D.tells }
    requires stood { SomeStory (Stands D.tells world.old (map D.seen disks.old.items)) CanClose }
    ensures done { OnOk result (ReachesWhere D.seen D.tells world.old disks.old.items world.new disks.new.items CanClose closed_in) }
    ensures rests { OnOk result (EachWhere (Stands D.tells world.old (map D.seen disks.old.items)) CanClose (λ session commands. Rests session (closed_in session commands))) }
    ensures fresh { OnOk result (EachStory (Fresh.Stands D.tells world.new (map D.seen disks.new.items)) Fresh.Rests) }
    ensures failed { IfErr result (FallsShortWhere D.seen D.tells world.old disks.old.items world.new disks.new.items CanClose closed_in) }
    ensures cause { CountsTell result (map D.seen disks.old.items) (map D.seen disks.new.items) }
{
    sessions_stay_up();
    sessions_close_at_rest();
    sessions_close_shortly();
    every_scenario_is_one(world.scenario());
    each_step(alloc, world, disks)
}
