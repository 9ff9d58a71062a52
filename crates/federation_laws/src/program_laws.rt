//! What the members of the site orders did: the coordinator and the sites agree on it through losses, repeats and restarts.
ghost use Rattle.federation_laws.specs.LaterRuns.{LaterRunsStandInNoOrder};
ghost use Rattle.federation_laws.specs.OneOrder.{OfStories};
ghost use Rattle.federation_laws.specs.Parts.{CommitsAgree, MembersFollowPrograms};

use commit_laws::later_runs_come_to_nothing;

/// The accesses of a committed attempt over all sites are the steps of its program, filled in with the values that it read, which are
/// those that the coordinator counted, or of a local one those that its site answered: at each site of whose order it is a member its
/// granted accesses, and elsewhere none.
pub fn members_follow_their_programs()
    ensures { OfStories MembersFollowPrograms }
{}

/// A local member stands at its home alone; a global one is prepared with the ticket that its Commit record names; and no attempt has two
/// Commit records.
pub fn commits_agree()
    ensures { OfStories CommitsAgree }
{}

/// A later run of a global attempt that is finished at a site stands in no order: behind the line that finished it, the attempt stands in the
/// site's order only by a Prepared record that was kept then.
pub fn later_runs_stand_in_no_order()
    ensures { LaterRunsStandInNoOrder }
{
    later_runs_come_to_nothing();
}
