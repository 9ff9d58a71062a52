//! A world that stops in the middle of its session, and what goes on from its disks.
ghost use Rattle.std.specs.Prelude.{◌≡◌, ◌≤◌, ◌+◌, IfOk, OnOk};
ghost use Rattle.journal_disk.specs.MemDisk.{mem_size};
ghost use Rattle.fed_world.specs.FewCommands.{AreNew, IsOfCommands};

use super::first_lines;
use super::sessions::PRESUMPTIONS;
use super::stores::stored;
use fed_rules::{Command, Scenario};
use fed_world::{World, WorldErr};
use file_disks::MemStore;
use journal_disk::MemDisk;
use mdb_base::Memory;
use mdb_top::Disk;
use scenario_text::read_commands;
use std::alloc::Global;
use std::test::Fail;

/// A disk with nothing on it.
fn new_disk(alloc: Global) -> Result<MemDisk, Memory>
    ensures { IfOk result (λ disk. mem_size disk ≡ 0) }
{
    MemDisk::new(alloc)
}

/// Nine disks with nothing on them.
fn nine_disks(alloc: Global) -> Result<Vec<MemDisk>, Memory>
    ensures { IfOk result (λ disks. AreNew disks.items) }
{
    let mut disks = Vec::new(alloc);
    for _place in 0..9_u8 {
        let disk = new_disk(alloc)?;
        disks.push(disk)?;
    }
    Ok(disks)
}

/// The world of this scenario, on these disks.
fn world_of(alloc: Global, scenario: Scenario, disks: &mut Vec<MemDisk>) -> Result<World, WorldErr>
    requires { AreNew disks.old.items }
    ensures { IfOk result (λ world. IsOfCommands 0 world disks.new.items) }
{
    let world = World::new(alloc, scenario, disks)?;
    Ok(world)
}

/// A world that stands for at most so many commands carries one more out.
fn step(
    alloc: Global,
    world: &mut World,
    disks: &mut Vec<MemDisk>,
    count: u32,
    command: Command,
) -> Result<(), WorldErr>
    requires few { count ≤ 1000 }
    requires stood { IsOfCommands count world.old disks.old.items }
    ensures { OnOk result (IsOfCommands (count + 1) world.new disks.new.items) }
{
    world.apply(alloc, disks, command)
}

/// Disks on which a world has carried out this session, and then all actors have stopped.
fn left_by(alloc: Global, session: &str) -> Result<Vec<MemDisk>, Fail> {
    let session = read_commands(alloc, session.as_bytes())?;
    let mut disks = nine_disks(alloc)?;
    let mut world = world_of(alloc, session.scenario, &mut disks)?;
    let mut count = 0;
    for command in session.commands.as_slice() {
        if count >= 1000 {
            break;
        }
        step(alloc, &mut world, &mut disks, count, *command)?;
        count += 1;
    }
    for disk in disks.iter_mut() {
        disk.stop(0);
    }
    Ok(disks)
}

// What goes on from a session that stops before its decision: the sites whose acknowledgement is required are told, and the one that presumes
// abort asks.
const UNDECIDED: &[u8] = b"back 0 => up known 1
back 1 => up epoch 2 doubtful 1
back 2 => up epoch 2 doubtful 1
back 3 => up epoch 2 doubtful 1
again 1.0 => sends 1/0 3/0
give 1 0 => settles 1.0 abort sends 0
take 1 0 => acked
give 3 0 => settles 1.0 abort sends 0
take 3 0 => forgets
ask 2 1.0 => asks 1.0 sends 0
take 2 0 => presumes abort sends 2/0
give 2 0 => settles 1.0 abort
outcome 1.0 abort
forgotten 1.0
table 1
table 2
table 3
end
";

/// A session of three sites stops behind its 18th command, which is the last vote.
#[test]
fn what_has_no_decision_aborts(rt: HostRuntime) -> Result<(), Fail> {
    let alloc = rt.alloc();
    let session = first_lines(alloc, PRESUMPTIONS.0, 23)?;
    let disks = left_by(alloc, &session)?;
    if disks.len() != 9 {
        return Err(Fail::from("there are nine disks"));
    }
    let mut store = MemStore::new(disks, Vec::new(alloc));
    let mut opened: Vec<MemDisk> = Vec::new(alloc);
    let (status, put) = stored(&rt, "resume x", b"", &mut store, &mut opened)?;
    assert_eq!(rt; status, 0);
    assert_eq!(rt; put.as_slice(), UNDECIDED);
    Ok(())
}
