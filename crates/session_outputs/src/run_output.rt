//! The output of a run: the lines of its hosts and those that end it, and the report, or the disk that failed.
ghost use Rattle.std.specs.Prelude.{◌≡◌, false, IsTrue, length, map};
ghost use Rattle.session_outputs.specs.Disks.{is_used, sizes_of};
ghost use Rattle.outputs.specs.Outputs.{IsOutput};
ghost use Rattle.session_outputs.specs.Runs.{running};

use crate::output::printed;
use crate::replay_output::scenario_is_whole;
use crate::threaded::{Ended, run_to_end};
use fed_rules::Scenario;
use federation_laws::federation_is_serializable;
use federation_run::Gate;
use journal_disk::Disk;
use line_laws::{closing_is_heard, conservative_lines_refuse_none, right_lines_fit};
use mdb_base::Memory;
use outputs::{Output, broken};
use progress_laws::{commits_are_settled_at_rest, ends_add_their_own};
use replay_laws::{closing_adds_nothing, commands_give_again};
use std::alloc::Global;
use std::sync::Wait;
use std::thread::Threads;

/// What is to be put of a scenario that runs in threads on nine empty disks, to its end: the lines of its hosts, those
/// that close the session and those that finish each transaction alone, and the report; or the lines made before a disk
/// call failed, and which disk. Disk a is that of actor a. Out of memory the contents of the disks are unspecified.
pub fn run_output_of<R: Threads + Wait + Sync, D: Disk + Send, G: Gate + Sync>(
    rt: &R,
    alloc: Global,
    scenario: Scenario,
    disks: &mut Vec<D>,
    gate: &G,
) -> Result<Output, Memory>
    requires told { IsTrue D.tells }
    requires nine { length disks.old.items ≡ 9 }
    requires unused { is_used (sizes_of (map D.seen disks.old.items)) ≡ false }
    ensures output { IsOutput (running D.seen) result (map D.seen disks.old.items) (map D.seen disks.new.items) scenario }
    ensures nine { length disks.new.items ≡ 9 }
{
    right_lines_fit();
    closing_is_heard();
    closing_adds_nothing();
    commands_give_again();
    commits_are_settled_at_rest();
    conservative_lines_refuse_none();
    federation_is_serializable();
    ends_add_their_own();
    scenario_is_whole(&scenario);
    match run_to_end(rt, alloc, scenario, disks, gate) {
        Ok(Ended::Done(world)) => printed(alloc, &world),
        Ok(Ended::Stopped { number, lines }) => broken(alloc, lines.as_slice(), number),
        Ok(Ended::Broken { number, world }) => broken(alloc, world.lines(), number),
        Err(Memory) => Err(Memory),
    }
}
