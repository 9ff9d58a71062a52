//! One printed line.
ghost use Rattle.std.specs.Prelude.{◌≡◌, ◌<◌, ◌+◌, ◌^◌, IfOk, IsTrue, length, map};
ghost use Rattle.scenario_text.specs.Pieces.{lines};
ghost use Rattle.fed_rules.specs.Story.{story_of};
ghost use Rattle.fed_world.specs.Faults.{CountsTell};
ghost use Rattle.fed_world.specs.FreshWorlds.{HasRoom, Recalls, Stands};
ghost use Rattle.fed_world.specs.Worlds.{AnyStory, EachStory, SomeStory};
ghost use Rattle.audit_rules.specs.Agreement.{verdict_at_order};
ghost use Rattle.audit_text.specs.Lines.{is_entry};
ghost use Rattle.run_audit.specs.Turns.{Checks, Turns, line_of};

use crate::candidates::is_wrong;
use crate::ends::is_at_rest;
use audit_laws::quiet_runs_rest;
use audit_lines::{fault_of, names_declared};
use audit_rules::{Verdict, What};
use audit_text::{FirstLine, Printed, read_printed, report_verdict};
use fed_rules::{Command, Line};
use fed_world::{World, WorldErr};
use journal_disk::Disk;
use mdb_base::{Memory, Tid};
use std::alloc::Global;

/// Carries out the command of a printed line, and compares the line with the one that the world makes: the first reason for which it is another
/// one, if there is one. A command that names a site or actor that isn't declared isn't carried out.
fn check_line<D: Disk>(
    alloc: Global,
    world: &mut World,
    disks: &mut Vec<D>,
    printed: &Line,
) -> Result<Option<What>, WorldErr>
    requires told { IsTrue D.tells }
    requires stood { SomeStory (Stands D.tells world.old (map D.seen disks.old.items)) HasRoom }
    ensures checks { IfOk result (λ fault. EachStory (Stands D.tells world.old (map D.seen disks.old.items)) (λ scenario commands.
        HasRoom scenario commands → Checks (Stands D.tells world.new (map D.seen disks.new.items)) printed.now scenario commands fault)) }
    ensures cause { CountsTell result (map D.seen disks.old.items) (map D.seen disks.new.items) }
{
    if !names_declared(world.scenario(), printed.command) {
        return Ok(Some(What::Form));
    }
    let Ok(wrong) = is_wrong(alloc, world, printed) else {
        return Err(WorldErr::Memory);
    };
    world.apply(alloc, disks, printed.command)?;
    let due = world.lines().last().unwrap();
    Ok(fault_of(printed, due, wrong))
}

/// The verdict at the line of the order, which has this number, with the text behind it.
fn at_order(
    alloc: Global,
    world: &World,
    number: u32,
    order: &[Tid],
    behind: &[u8],
) -> Result<Verdict, Memory>
    requires stood { SomeStory (Recalls world.now) AnyStory }
    requires number { number + 1 + length behind.now < 2 ^ 32 }
    ensures { IfOk result (λ verdict. EachStory (Recalls world.now) (λ scenario commands.
        verdict ≡ verdict_at_order is_entry scenario number order.now (lines behind.now) (story_of scenario commands))) }
{
    quiet_runs_rest();
    if !is_at_rest(alloc, world)? {
        return Ok(Verdict::Differs {
            line: number,
            what: What::Open,
        });
    }
    match world.report_in(alloc, order)? {
        None => Ok(Verdict::Differs {
            line: number,
            what: What::Order,
        }),
        Some(report) => report_verdict(alloc, &report, number + 1, behind),
    }
}

/// The verdict that a printed line with this number ends the audit with: where it differs, or at the order. Where it is the right line of a
/// command, there is none, and the world has carried that command out.
pub(crate) fn check_printed<D: Disk>(
    alloc: Global,
    world: &mut World,
    disks: &mut Vec<D>,
    number: u32,
    line: FirstLine<'_>,
) -> Result<Option<Verdict>, WorldErr>
    requires told { IsTrue D.tells }
    requires stood { SomeStory (Stands D.tells world.old (map D.seen disks.old.items)) HasRoom }
    requires number { number + 1 + length line.behind.now < 2 ^ 32 }
    ensures turns { IfOk result (λ turn. EachStory (Stands D.tells world.old (map D.seen disks.old.items)) (λ scenario commands.
        HasRoom scenario commands → Turns (Stands D.tells world.new (map D.seen disks.new.items)) scenario commands number (line_of line.entry) (lines line.entry.behind.now) turn)) }
    ensures cause { CountsTell result (map D.seen disks.old.items) (map D.seen disks.new.items) }
{
    let Ok(printed) = read_printed(alloc, line.bytes, line.ended) else {
        return Err(WorldErr::Memory);
    };
    match printed {
        Printed::Says(said) => match check_line(alloc, world, disks, &said)? {
            Some(what) => Ok(Some(Verdict::Differs { line: number, what })),
            None => Ok(None),
        },
        Printed::Orders(order) => {
            match at_order(alloc, world, number, order.as_slice(), line.behind) {
                Ok(verdict) => Ok(Some(verdict)),
                Err(Memory) => Err(WorldErr::Memory),
            }
        }
        Printed::Neither => Ok(Some(Verdict::Differs {
            line: number,
            what: What::Form,
        })),
    }
}
