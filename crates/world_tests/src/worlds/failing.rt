//! A session of two sites, each disk of which fails at each of its calls.
use super::{carry_out, nine_disks};
use fed_world::{World, WorldErr};
use scenario_text::read_scenario;
use std::alloc::Global;
use std::process::Abort;
use std::test::Fail;

const TWO: &str = "site 1 locking nothing
site 2 timestamp abort
global 1 1/set:1:11 2/set:2:22
";

const SCRIPT: &str = "go 1 => begun 1.0 sends 1/0
give 1 0 => did 1.0 done sends 0
take 1 0 => sends 1/1 2/0
give 1 1 => did 1.0 ticket 1 sends 1
take 1 1 => initiates sends 1/2
give 1 2 => votes 1.0 yes 1 sends 2
take 1 2 => voted
give 2 0 => did 1.0 done sends 0
take 2 0 => sends 2/1
give 2 1 => did 1.0 ticket 1 sends 1
take 2 1 => sends 2/2
give 2 2 => votes 1.0 yes 1 sends 2
take 2 2 => decides commit sends 1/3 2/3
give 1 3 => settles 1.0 commit sends 3
take 1 3 => acked
give 2 3 => settles 1.0 commit sends 3
take 2 3 => forgets
check 0 => checked
check 1 => checked
check 2 => checked
halt 2 0 => stopped kept 1
back 2 => up epoch 2 doubtful 0";

/// The session on disks of which this one fails at this call: the number of the disk that failed, if one did.
fn fails(rt: &impl Abort, alloc: Global, number: u8, call: u32) -> Result<Option<u8>, Fail> {
    let mut disks = nine_disks(alloc, number, call)?;
    let scenario = read_scenario(alloc, TWO.as_bytes())?;
    match World::new(alloc, scenario, &mut disks) {
        Ok(mut world) => carry_out(rt, alloc, &mut world, &mut disks, 0, SCRIPT),
        Err(WorldErr::Disk { number }) => Ok(Some(number)),
        Err(WorldErr::Memory) => Err(Fail::from("there is memory")),
    }
}

/// How many calls of this disk the session makes: it fails at each of them, and at none behind them.
fn calls_of(rt: &impl Abort, alloc: Global, number: u8) -> Result<u32, Fail> {
    for call in 1..100 {
        match fails(rt, alloc, number, call)? {
            Some(failed) => assert_eq!(rt; failed, number, "{call}"),
            None => return Ok(call - 1),
        }
    }
    Err(Fail::from("the session is short"))
}

// The coordinator forces an Initiation and a Commit record (2 calls each), notes an End (1), and writes a Checkpoint (3). A site is set up
// (3), prepares and settles (2 each) and writes a Checkpoint (3), and site 2 starts again (3: it reads its disk, appends and syncs).
#[test]
fn each_disk_fails_at_each_of_its_calls(rt: HostRuntime) -> Result<(), Fail> {
    let alloc = rt.alloc();
    for (number, calls) in [(0, 8), (1, 10), (2, 13), (3, 0)] {
        assert_eq!(rt; calls_of(&rt, alloc, number)?, calls, "{number}");
    }
    Ok(())
}
