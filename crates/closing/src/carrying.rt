//! Commands that are carried out one after another.
ghost use Rattle.std.specs.Prelude.{IfErr, OnOk, IsTrue, map};
ghost use Rattle.fed_world.specs.Faults.{CountsTell};
ghost use Rattle.fed_world.specs.Worlds.{SomeStory, Stands};
ghost use Rattle.closing.specs.Steps.{FitWith, with_commands};
ghost use Rattle.closing.specs.Towards.{FallsShort, Reaches};

use fed_rules::Command;
use fed_world::{World, WorldErr};
use journal_disk::Disk;
use std::alloc::Global;

/// Carries out these commands, one after another.
pub(crate) fn carry_out<D: Disk>(
    alloc: Global,
    world: &mut World,
    disks: &mut Vec<D>,
    commands: &[Command],
) -> Result<(), WorldErr>
    requires told { IsTrue D.tells }
    requires stood { SomeStory (Stands D.tells world.old (map D.seen disks.old.items)) (FitWith commands.now) }
    ensures done { OnOk result (Reaches D.seen D.tells world.old disks.old.items world.new disks.new.items (λ session before. with_commands commands.now before)) }
    ensures failed { IfErr result (FallsShort D.seen D.tells world.old disks.old.items world.new disks.new.items (λ session before. with_commands commands.now before)) }
    ensures cause { CountsTell result (map D.seen disks.old.items) (map D.seen disks.new.items) }
{
    for command in commands {
        world.apply(alloc, disks, *command)?;
    }
    Ok(())
}
