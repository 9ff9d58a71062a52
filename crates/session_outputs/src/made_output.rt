//! The output of a made scenario: the summary of its journals, or the disk that failed.
ghost use Rattle.std.specs.Prelude.{◌≡◌, false, IsTrue, length, map};
ghost use Rattle.fed_rules.specs.Story.{story_of};
ghost use Rattle.fed_world.specs.FreshWorlds.{Recalls, Rests};
ghost use Rattle.fed_world.specs.Worlds.{EachStory};
ghost use Rattle.report_text.specs.Summaries as summaries;
ghost use Rattle.session_outputs.specs.Disks.{is_used, sizes_of};
ghost use Rattle.session_outputs.specs.Makes.{IsMakeable};
ghost use Rattle.session_outputs.specs.Makes as makes;
ghost use Rattle.outputs.specs.Outputs.{IfWhole, IsOutput};

use crate::making::Making;
use crate::summing::summed;
use crate::threaded::{Ended, run_to_end};
use fed_world::World;
use federation_laws::federation_is_serializable;
use federation_run::Gate;
use journal_disk::Disk;
use made_laws::{made_lines_are_fixed, unchecked_journals_are_whole};
use mdb_base::Memory;
use outputs::{Output, broken};
use progress_laws::commits_are_settled_at_rest;
use scenario_maker::make;
use std::alloc::Global;
use std::sync::Wait;
use std::thread::Threads;

/// The summary of a world at rest.
fn summary(alloc: Global, world: &World) -> Result<Output, Memory>
    ensures { IfWhole result (λ bytes. EachStory (Recalls world.now) (λ scenario commands. Rests scenario commands
        → bytes ≡ summaries.summary_text scenario (story_of scenario commands))) }
{
    Ok(Output::Whole(summed(alloc, world)?))
}

/// What is to be put of a made scenario that runs in threads on nine empty disks, to its end: the summary of its
/// journals, or which disk failed. Disk a is that of actor a. Out of memory the contents of the disks are unspecified.
pub fn made_output_of<R: Threads + Wait + Sync, D: Disk + Send, G: Gate + Sync>(
    rt: &R,
    alloc: Global,
    making: Making,
    disks: &mut Vec<D>,
    gate: &G,
) -> Result<Output, Memory>
    requires told { IsTrue D.tells }
    requires makeable { IsMakeable making }
    requires nine { length disks.old.items ≡ 9 }
    requires unused { is_used (sizes_of (map D.seen disks.old.items)) ≡ false }
    ensures output { IsOutput (makes.making D.seen) result (map D.seen disks.old.items) (map D.seen disks.new.items) making }
    ensures nine { length disks.new.items ≡ 9 }
{
    commits_are_settled_at_rest();
    federation_is_serializable();
    made_lines_are_fixed();
    unchecked_journals_are_whole();
    let scenario = make(alloc, making.number, making.sites, making.transactions)?;
    match run_to_end(rt, alloc, scenario, disks, gate) {
        Ok(Ended::Done(world)) => summary(alloc, &world),
        Ok(Ended::Stopped { number, lines: _ }) => broken(alloc, &[], number),
        Ok(Ended::Broken { number, world: _ }) => broken(alloc, &[], number),
        Err(Memory) => Err(Memory),
    }
}
