//! What made scenarios are worth, how many commits they keep, and the line that is printed of them.
ghost use Rattle.made_laws.specs.Counted.{CommitsAreCounted, MadeSummariesAreFixed};
ghost use Rattle.made_laws.specs.Moves.{MadeTotalsStay, MovesKeepWorth};
ghost use Rattle.made_laws.specs.Summaries.{MadeLinesAreFixed};
ghost use Rattle.made_laws.specs.Unchecked.{EndsAreUnchecked, UncheckedJournalsAreWhole};

use federation_laws::federation_is_serializable;
use progress_laws::ends_add_their_own;
use site_history::{each_site_of_a_story_is_serial, sites_journals_say_all};

/// Programs that each move an amount from one row to another, run one after another, leave the tables worth as much,
/// modulo 2^64.
pub fn moves_keep_worth()
    ensures { MovesKeepWorth }
{}

/// At rest the tables of a made scenario are worth 1,000 for each site, whatever was done, lost, stopped or refused
/// before.
pub fn made_totals_stay()
    ensures { MadeTotalsStay }
{
    federation_is_serializable();
    moves_keep_worth();
}

/// Where each transaction has a commit, the sites and the coordinator keep as many commits together as there are
/// transactions.
pub fn commits_are_counted()
    ensures { CommitsAreCounted }
{
    federation_is_serializable();
    each_site_of_a_story_is_serial();
}

/// The summary of a made scenario, at rest and with a commit of each transaction, is told by the numbers of its sites
/// and transactions.
pub fn made_summaries_are_fixed()
    ensures { MadeSummariesAreFixed }
{
    made_totals_stay();
    commits_are_counted();
}

/// Where no command asks for a Checkpoint, the journal of each actor is all its records; and what ends a run asks for
/// none.
pub fn unchecked_journals_are_whole()
    ensures whole { UncheckedJournalsAreWhole }
    ensures ends { EndsAreUnchecked }
{
    ends_add_their_own();
}

/// The line of a made scenario, at rest, with a commit of each transaction and with no Checkpoint, is told by the
/// numbers of its sites and transactions, whatever it was made from and whatever the threads did.
pub fn made_lines_are_fixed()
    ensures { MadeLinesAreFixed }
{
    made_summaries_are_fixed();
    unchecked_journals_are_whole();
    sites_journals_say_all();
}
