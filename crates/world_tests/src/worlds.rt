//! Sessions of a world on disks in memory: each command's line is the one that is printed.
ghost use Rattle.std.specs.Prelude.{◌≡◌, ◌≤◌, ◌+◌, None, IfOk, OnOk};
ghost use Rattle.journal_disk.specs.MemDisk.{mem_size};
ghost use Rattle.fed_world.specs.FewCommands.{AreNew, IsOfCommands};

mod conservative;
mod failing;
mod sessions;

use crate::commands::is_same_line;
use fed_rules::{Command, Scenario};
use fed_world::{World, WorldErr};
use journal_disk::MemDisk;
use mdb_base::Memory;
use scenario_text::read_scenario;
use std::alloc::Global;
use std::process::Abort;
use std::test::Fail;
use trace_lines::read_line;

/// An empty disk, which fails at this call if it is to fail.
fn new_disk(alloc: Global, failing: bool, call: u32) -> Result<MemDisk, Memory>
    ensures { IfOk result (λ disk. mem_size disk ≡ 0) }
{
    if failing {
        MemDisk::failing(alloc, &[call])
    } else {
        MemDisk::new(alloc)
    }
}

/// Nine empty disks, of which this one fails at this call, counted from 1; at call 0 none fails.
fn nine_disks(alloc: Global, number: u8, call: u32) -> Result<Vec<MemDisk>, Memory>
    ensures { IfOk result (λ disks. AreNew disks.items) }
{
    let mut disks = Vec::new(alloc);
    for place in 0..9_u8 {
        let disk = new_disk(alloc, place == number, call)?;
        disks.push(disk)?;
    }
    Ok(disks)
}

/// A world that stands for at most so many commands carries one more out.
fn step(
    alloc: Global,
    world: &mut World,
    disks: &mut Vec<MemDisk>,
    count: u32,
    command: Command,
) -> Result<(), WorldErr>
    requires few { count ≤ 1000 }
    requires stood { IsOfCommands count world.old disks.old.items }
    ensures { OnOk result (IsOfCommands (count + 1) world.new disks.new.items) }
{
    world.apply(alloc, disks, command)
}

/// The lines of the world are the first ones of this script.
fn has_front(rt: &impl Abort, alloc: Global, world: &World, script: &str) -> Result<(), Fail> {
    for (made, text) in world.lines().iter().zip(script.lines()) {
        let line = read_line(alloc, text.as_bytes())?;
        assert!(rt; is_same_line(made, &line), "{text}");
    }
    Ok(())
}

/// Carries out the commands of a script, of at most 99 lines, and compares each line that they become. Where a disk fails, which is answered
/// with its number, the world is broken, and the lines before stay.
fn carry_out(
    rt: &impl Abort,
    alloc: Global,
    world: &mut World,
    disks: &mut Vec<MemDisk>,
    start: u32,
    script: &str,
) -> Result<Option<u8>, Fail>
    requires few { start ≤ 900 }
    requires stood { IsOfCommands start world.old disks.old.items }
    ensures { IfOk result (λ failed. failed ≡ None → IsOfCommands (start + 100) world.new disks.new.items) }
{
    let mut count = start;
    for text in script.lines() {
        if count > start + 98 {
            return Err(Fail::from("the script is too long"));
        }
        let line = read_line(alloc, text.as_bytes())?;
        let before = world.lines().len();
        match step(alloc, world, disks, count, line.command) {
            Ok(()) => {}
            Err(WorldErr::Memory) => return Err(Fail::from("there is memory")),
            Err(WorldErr::Disk { number }) => {
                assert!(rt; world.is_broken());
                assert_eq!(rt; world.lines().len(), before);
                has_front(rt, alloc, world, script)?;
                return Ok(Some(number));
            }
        }
        count += 1;
        match world.lines().last() {
            Some(made) => assert!(rt; is_same_line(made, &line), "{text}"),
            None => return Err(Fail::from("a command has a line")),
        }
    }
    assert!(rt; !world.is_broken());
    Ok(None)
}

/// Carries out the commands of a script, and compares each line that they become. No disk fails.
fn play(
    rt: &impl Abort,
    alloc: Global,
    world: &mut World,
    disks: &mut Vec<MemDisk>,
    start: u32,
    script: &str,
) -> Result<(), Fail>
    requires few { start ≤ 900 }
    requires stood { IsOfCommands start world.old disks.old.items }
    ensures { OnOk result (IsOfCommands (start + 100) world.new disks.new.items) }
{
    match carry_out(rt, alloc, world, disks, start, script)? {
        Some(_) => Err(Fail::from("no disk fails")),
        None => Ok(()),
    }
}

/// The world of this scenario, on these disks.
fn world_of(alloc: Global, scenario: &str, disks: &mut Vec<MemDisk>) -> Result<World, Fail>
    requires { AreNew disks.old.items }
    ensures { IfOk result (λ world. IsOfCommands 0 world disks.new.items) }
{
    let scenario: Scenario = read_scenario(alloc, scenario.as_bytes())?;
    let world = World::new(alloc, scenario, disks)?;
    Ok(world)
}

/// Carries out a whole session.
fn replays(rt: &impl Abort, alloc: Global, scenario: &str, script: &str) -> Result<(), Fail> {
    let mut disks = nine_disks(alloc, 0, 0)?;
    let mut world = world_of(alloc, scenario, &mut disks)?;
    play(rt, alloc, &mut world, &mut disks, 0, script)
}
