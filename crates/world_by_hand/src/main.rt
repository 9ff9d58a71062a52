//! A session by hand: a world of one site on disks in memory. A local transaction commits, the site stops and starts again, and the
//! transaction is still committed. The answer of each command is printed.
//!
//! A world stands for a scenario and the commands that it carried out. Each call adds its line behind those made before, and the line is
//! the one that the rules give.
#![tactic(auto)]

ghost use Rattle.std.specs.Prelude.{◌≡◌, ◌≤◌, ◌+◌, IfOk, OnOk};
ghost use Rattle.journal_disk.specs.MemDisk.{mem_size};
ghost use Rattle.fed_world.specs.FewCommands.{AreNew, IsOfCommands};

use fed_rules::{Answer, Command};
use fed_world::{World, WorldErr};
use journal_disk::MemDisk;
use mdb_base::{Memory, Tx, put_text};
use scenario_text::read_scenario;
use std::alloc::Global;
use std::io::Write;
use std::process::ExitCode;

/// One site that locks, with a key, and a transaction that writes it.
const SCENARIO: &str = "site 1 locking abort
item 1 10 500
local 1 1 set:10:400
";

/// It runs and commits, the site stops and starts again, and its client asks what became of it.
const COMMANDS: [Command; 6] = [
    Command::Begin(Tx(1)),
    Command::Step(Tx(1)),
    Command::Commit(Tx(1)),
    Command::Halt { actor: 1, cut: 0 },
    Command::Back { actor: 1 },
    Command::Fate(Tx(1)),
];

/// Why there is no output.
#[derive(Clone, Copy)]
enum NoOutput {
    /// The scenario can't be read.
    Text,
    /// It is out of memory.
    Memory,
    /// A disk call failed.
    Disk,
}

impl From<Memory> for NoOutput {
    fn from(_: Memory) -> Self {
        NoOutput::Memory
    }
}

impl From<WorldErr> for NoOutput {
    fn from(why: WorldErr) -> Self {
        match why {
            WorldErr::Memory => NoOutput::Memory,
            WorldErr::Disk { .. } => NoOutput::Disk,
        }
    }
}

/// A disk with nothing on it.
fn new_disk(alloc: Global) -> Result<MemDisk, Memory>
    ensures { IfOk result (λ disk. mem_size disk ≡ 0) }
{
    MemDisk::new(alloc)
}

/// A disk for the coordinator and for each site that there may be.
fn nine_disks(alloc: Global) -> Result<Vec<MemDisk>, Memory>
    ensures { IfOk result (λ disks. AreNew disks.items) }
{
    let mut disks = Vec::new(alloc);
    for _place in 0..9_u8 {
        let disk = new_disk(alloc)?;
        disks.push(disk)?;
    }
    Ok(disks)
}

/// The world of the scenario, on these disks.
fn world_of(alloc: Global, disks: &mut Vec<MemDisk>) -> Result<World, NoOutput>
    requires { AreNew disks.old.items }
    ensures { IfOk result (λ world. IsOfCommands 0 world disks.new.items) }
{
    let Ok(scenario) = read_scenario(alloc, SCENARIO.as_bytes()) else {
        return Err(NoOutput::Text);
    };
    let world = World::new(alloc, scenario, disks)?;
    Ok(world)
}

/// A world that stands for at most so many commands carries one more out.
fn step(
    alloc: Global,
    world: &mut World,
    disks: &mut Vec<MemDisk>,
    count: u32,
    command: Command,
) -> Result<(), WorldErr>
    requires few { count ≤ 1000 }
    requires stood { IsOfCommands count world.old disks.old.items }
    ensures { OnOk result (IsOfCommands (count + 1) world.new disks.new.items) }
{
    world.apply(alloc, disks, command)
}

/// The answer of the newest line in a word.
fn last_word(world: &World) -> &'static str {
    match world.lines().last() {
        Some(line) => match line.answer {
            Answer::Begun(_) => "begun",
            Answer::Wrote(_, _) => "wrote",
            Answer::Sealed(_, _) => "sealed",
            Answer::Stopped(_) => "stopped",
            Answer::UpSite { .. } => "up",
            Answer::Committed(_) => "committed",
            _ => "something else",
        },
        None => "nothing",
    }
}

/// Carries out the commands, and tells each answer on a line.
fn play(alloc: Global, world: &mut World, disks: &mut Vec<MemDisk>) -> Result<Vec<u8>, NoOutput>
    requires { IsOfCommands 0 world.old disks.old.items }
{
    let mut text = Vec::new(alloc);
    let mut count = 0;
    for command in COMMANDS {
        if count >= 1000 {
            break;
        }
        step(alloc, world, disks, count, command)?;
        count += 1;
        put_text(&mut text, last_word(world))?;
        put_text(&mut text, "\n")?;
    }
    Ok(text)
}

/// The whole session.
fn output(alloc: Global) -> Result<Vec<u8>, NoOutput> {
    let mut disks = nine_disks(alloc)?;
    let mut world = world_of(alloc, &mut disks)?;
    play(alloc, &mut world, &mut disks)
}

fn main(rt: HostRuntime) -> ExitCode {
    match output(rt.alloc()) {
        Ok(text) => {
            let mut out = rt.stdout();
            match out.write_all(&text) {
                Ok(()) => ExitCode::from(0),
                Err(_) => ExitCode::from(4),
            }
        }
        Err(NoOutput::Text) => ExitCode::from(2),
        Err(NoOutput::Disk) => ExitCode::from(5),
        Err(NoOutput::Memory) => ExitCode::from(6),
    }
}
