//! What the journals of a session at rest say together.
ghost use Rattle.std.specs.Prelude.{◌≡◌, ◌+◌, IfOk, List};
ghost use Rattle.fed_rules.specs.declared.commands.Command.{Command};
ghost use Rattle.fed_rules.specs.declared.scenario.Scenario.{Scenario as TheScenario};
ghost use Rattle.fed_rules.specs.Story.{Story, story_of};
ghost use Rattle.fed_world.specs.FreshWorlds.{ActorsRecall, Recalls, Rests};
ghost use Rattle.fed_world.specs.Worlds.{EachStory};
ghost use Rattle.report_text.specs.Summaries as summaries;
ghost use Rattle.session_outputs.specs.Summing.{line_of};

use crate::summary::{
    Summary, global_commits, globals, local_commits, locals, rows_total, summary_line,
};
use fed_world::{Cores, World};
use mdb_base::Memory;
use site_history::sites_journals_say_all;
use std::alloc::Global;

/// The sum of two counts. What there are more than 2^64 - 1 of is beyond any memory.
fn plus(count: u64, more: u64) -> Result<u64, Memory>
    ensures { IfOk result (λ sum. sum ≡ count + more) }
{
    count.checked_add(more).ok_or(Memory)
}

/// How many commits of local transactions stand in the journals of the sites.
fn local_commits_of(cores: &Cores) -> Result<u64, Memory>
    ensures { IfOk result (λ count. (scenario : TheScenario) (story : Story) → ActorsRecall cores.now scenario story → count ≡ summaries.local_commits scenario story) }
{
    let mut count = 0;
    for place in 0..cores.sites.len() {
        let records = cores.sites.at(place).core().records();
        count = plus(count, local_commits(records) as u64)?;
    }
    Ok(count)
}

/// How many commits stand in all journals.
fn commits_of(cores: &Cores) -> Result<u64, Memory>
    ensures { IfOk result (λ count. (scenario : TheScenario) (story : Story) → ActorsRecall cores.now scenario story → count ≡ summaries.commits scenario story) }
{
    let count = local_commits_of(cores)?;
    let records = cores.coordinator.core().records();
    plus(count, global_commits(records) as u64)
}

/// The sum of all values in the tables that the journals give, modulo 2^64, of a session at rest.
fn total_of(alloc: Global, cores: &Cores) -> Result<u64, Memory>
    ensures { IfOk result (λ total. (scenario : TheScenario) (commands : List Command) → ActorsRecall cores.now scenario (story_of scenario commands)
        → Rests scenario commands → total ≡ summaries.total_given scenario (story_of scenario commands)) }
{
    sites_journals_say_all();
    let mut total: u64 = 0;
    for place in 0..cores.sites.len() {
        let rows = cores.sites.at(place).core().rows(alloc)?;
        total = total.wrapping_add(rows_total(rows.as_slice()));
    }
    Ok(total)
}

/// The summary of a session at rest.
fn summary_of(alloc: Global, world: &World) -> Result<Summary, Memory>
    ensures { IfOk result (λ summary. EachStory (Recalls world.now) (λ scenario commands. Rests scenario commands
        → line_of summary ≡ summaries.summary_text scenario (story_of scenario commands))) }
{
    let scenario = world.scenario();
    let transactions = scenario.transactions.as_slice();
    let cores = world.cores();
    Ok(Summary {
        sites: scenario.sites.len() as u64,
        globals: globals(transactions) as u64,
        locals: locals(transactions) as u64,
        committed: commits_of(cores)?,
        total: total_of(alloc, cores)?,
    })
}

/// The line of the summary of a session at rest.
pub(crate) fn summed(alloc: Global, world: &World) -> Result<Vec<u8>, Memory>
    ensures { IfOk result (λ text. EachStory (Recalls world.now) (λ scenario commands. Rests scenario commands
        → text.items ≡ summaries.summary_text scenario (story_of scenario commands))) }
{
    summary_line(alloc, summary_of(alloc, world)?)
}
