//! The output of a session that is replayed: the lines that it makes, and its report, or the disk that failed.
ghost use Rattle.std.specs.Prelude.{◌≡◌, false, IsTrue, IfErr, OnOk, length, map};
ghost use Rattle.fed_rules.specs.Plans.{IsScenario};
ghost use Rattle.closing.specs.FreshTowards.{FallsShort, FallsShortWhere, FitWith, Reaches, ReachesWhere};
ghost use Rattle.closing.specs.Steps.{with_commands};
ghost use Rattle.fed_world.specs.Faults.{CountsTell};
ghost use Rattle.fed_world.specs.FreshWorlds.{Stands};
ghost use Rattle.fed_world.specs.Worlds.{SomeStory};
ghost use Rattle.scenario_text.specs.Kept.{AreCommands};
ghost use Rattle.session_outputs.specs.Disks.{is_used, sizes_of};
ghost use Rattle.outputs.specs.Outputs.{IsOutput};
ghost use Rattle.session_outputs.specs.Plays.{CanPlay, closed_with};
ghost use Rattle.session_outputs.specs.Replays.{replaying};

use crate::output::printed;
use closing::close;
use closing_laws::closed_sessions_rest;
use fed_rules::{Command, Scenario};
use fed_world::{World, WorldErr};
use federation_laws::federation_is_serializable;
use journal_disk::Disk;
use line_laws::{closing_is_heard, conservative_lines_refuse_none, right_lines_fit};
use mdb_base::Memory;
use outputs::{Output, broken};
use progress_laws::commits_are_settled_at_rest;
use scenario_text::Session;
use std::alloc::Global;

/// Carries out the commands, one after another.
fn carry_out<D: Disk>(
    alloc: Global,
    world: &mut World,
    commands: &[Command],
    disks: &mut Vec<D>,
) -> Result<(), WorldErr>
    requires told { IsTrue D.tells }
    requires stood { SomeStory (Stands D.tells world.old (map D.seen disks.old.items)) (FitWith commands.now) }
    ensures done { OnOk result (Reaches D.seen D.tells world.old disks.old.items world.new disks.new.items (λ scenario before. with_commands commands.now before)) }
    ensures failed { IfErr result (FallsShort D.seen D.tells world.old disks.old.items world.new disks.new.items (λ scenario before. with_commands commands.now before)) }
    ensures cause { CountsTell result (map D.seen disks.old.items) (map D.seen disks.new.items) }
{
    let Ok(()) = world.make_room(commands.len()) else {
        return Err(WorldErr::Memory);
    };
    for command in commands {
        world.apply(alloc, disks, *command)?;
    }
    Ok(())
}

/// Carries out the commands, and closes the session. After a refusal the lines made until then stand.
fn play<D: Disk>(
    alloc: Global,
    world: &mut World,
    commands: &[Command],
    disks: &mut Vec<D>,
) -> Result<(), WorldErr>
    requires told { IsTrue D.tells }
    requires stood { SomeStory (Stands D.tells world.old (map D.seen disks.old.items)) (CanPlay commands.now) }
    ensures played { OnOk result (ReachesWhere D.seen D.tells world.old disks.old.items world.new disks.new.items (CanPlay commands.now) (closed_with commands.now)) }
    ensures failed { IfErr result (FallsShortWhere D.seen D.tells world.old disks.old.items world.new disks.new.items (CanPlay commands.now) (closed_with commands.now)) }
    ensures cause { CountsTell result (map D.seen disks.old.items) (map D.seen disks.new.items) }
{
    carry_out(alloc, world, commands, disks)?;
    close(alloc, world, disks)
}

/// A scenario is one that the rules speak of.
pub(crate) fn scenario_is_whole(scenario: &Scenario)
    ensures { IsScenario scenario.now }
{
    let _ = &scenario.sites;
}

/// What is to be put of a session that is carried out on nine empty disks and closed: its lines and its report, or the
/// lines made before a disk call failed, and which disk. Disk a is that of actor a. Out of memory the disks hold what
/// the rules say behind the commands done until then, or what a failed disk call left.
pub fn output_of<D: Disk>(
    alloc: Global,
    session: Session,
    disks: &mut Vec<D>,
) -> Result<Output, Memory>
    requires told { IsTrue D.tells }
    requires commands { AreCommands session.scenario.sites session.commands }
    requires nine { length disks.old.items ≡ 9 }
    requires unused { is_used (sizes_of (map D.seen disks.old.items)) ≡ false }
    ensures output { IsOutput (replaying D.seen) result (map D.seen disks.old.items) (map D.seen disks.new.items) session }
    ensures nine { length disks.new.items ≡ 9 }
{
    right_lines_fit();
    closing_is_heard();
    closed_sessions_rest();
    commits_are_settled_at_rest();
    conservative_lines_refuse_none();
    federation_is_serializable();
    let Session { scenario, commands } = session;
    scenario_is_whole(&scenario);
    let mut world = match World::new(alloc, scenario, disks) {
        Ok(world) => world,
        Err(WorldErr::Disk { number }) => return broken(alloc, &[], number),
        Err(WorldErr::Memory) => return Err(Memory),
    };
    match play(alloc, &mut world, commands.as_slice(), disks) {
        Ok(()) => {
            // Their memory is room for what is printed.
            drop(commands);
            let output = printed(alloc, &world);
            drop(world);
            output
        }
        Err(WorldErr::Disk { number }) => {
            let output = broken(alloc, world.lines(), number);
            drop(world);
            output
        }
        Err(WorldErr::Memory) => {
            drop(world);
            Err(Memory)
        }
    }
}
