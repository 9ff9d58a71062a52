//! The printed lines, one by one.
ghost use Rattle.std.specs.Prelude.{◌≡◌, ◌<◌, ◌+◌, ◌^◌, IfOk, IsTrue, length, map};
ghost use Rattle.fed_world.specs.Faults.{CountsTell};
ghost use Rattle.fed_world.specs.FreshWorlds.{Stands};
ghost use Rattle.fed_world.specs.Worlds.{EachStory, SomeStory};
ghost use Rattle.run_audit.specs.Audits.{WillFit, verdict_behind};

use crate::turns::check_printed;
use audit_rules::{Verdict, What};
use audit_text::first_line;
use fed_world::{World, WorldErr};
use journal_disk::Disk;
use std::alloc::Global;

/// The verdict on printed lines, of which the first has this number.
pub(crate) fn check_lines<D: Disk>(
    alloc: Global,
    world: &mut World,
    disks: &mut Vec<D>,
    first: u32,
    text: &[u8],
) -> Result<Verdict, WorldErr>
    requires told { IsTrue D.tells }
    requires stood { SomeStory (Stands D.tells world.old (map D.seen disks.old.items)) (WillFit text.now) }
    requires number { first + length text.now < 2 ^ 31 }
    ensures verdict { IfOk result (λ verdict. EachStory (Stands D.tells world.old (map D.seen disks.old.items)) (λ scenario commands.
        WillFit text.now scenario commands → verdict ≡ verdict_behind first text.now scenario commands)) }
    ensures cause { CountsTell result (map D.seen disks.old.items) (map D.seen disks.new.items) }
{
    let mut rest = text;
    let mut number: u32 = first;
    while !rest.is_empty() {
        let line = first_line(rest);
        if let Some(verdict) = check_printed(alloc, world, disks, number, line)? {
            return Ok(verdict);
        }
        rest = line.behind;
        number += 1;
    }
    Ok(Verdict::Differs {
        line: number,
        what: What::Form,
    })
}
