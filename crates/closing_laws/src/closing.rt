//! How a session is closed.
ghost use Rattle.closing_laws.specs.AtRest.{ClosedSessionsRest, ClosingStaysUp};
ghost use Rattle.closing_laws.specs.Bound.{ClosingIsShort};
ghost use Rattle.closing_laws.specs.Runs.{SitesBeginOnce};

use site_history::stories_have_right_lines;

/// Whatever happened before, behind the commands that close a session every actor is up, no trip is armed, and nothing is live, in doubt
/// or known.
pub fn closed_sessions_rest()
    ensures { ClosedSessionsRest }
{
    stories_have_right_lines();
}

/// Whatever happened before, every actor is up from the second step of closing on.
pub fn closing_stays_up()
    ensures { ClosingStaysUp }
{
    stories_have_right_lines();
}

/// Closing makes at most 1,638,418 commands, however many came before it, under either policy: two for each of nine actors, and at most 50 for
/// each of 32 attempts of 1,024 transactions.
pub fn closing_is_bounded()
    ensures { ClosingIsShort }
{}

/// No attempt begins twice at a site within an epoch: a local one has the next number of its transaction, and a global one isn't begun again
/// once a run of it ended there. So the list of what is live at a site names no attempt twice.
pub fn sites_begin_attempts_once()
    ensures { SitesBeginOnce }
{}
