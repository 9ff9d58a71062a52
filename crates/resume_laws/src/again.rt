//! What a session leaves that goes on and is itself stopped.
ghost use Rattle.resume_laws.specs.Again.{LeftDisksAreFound, StoppedSessionsKeepOutcomes, StoppedSessionsRest, StopsKeepOutcomes, UsableSessionsLeaveUsable};

/// A session that goes on from usable disks, whoever left them, leaves usable ones, behind whatever commands, halts and trips included. So a session goes on
/// again from what a stop leaves of it. It draws no number; the epochs that were found leave room below 2^31 for as many starts as there are commands.
pub fn usable_sessions_leave_usable()
    ensures { UsableSessionsLeaveUsable }
{}

/// The session that goes on from what the stop left gives each attempt the outcome that the first one gives it where nothing stops it.
pub fn stopped_sessions_keep_outcomes()
    ensures { StoppedSessionsKeepOutcomes }
{}

/// At its end every actor is up, no trip is armed, and nothing is live, in doubt or known.
pub fn stopped_sessions_rest()
    ensures { StoppedSessionsRest }
{}

/// Every disk that a session leaves that began with empty disks and has fewer lines than 2^30 is such a disk, with room for fewer than 2^30 starts.
pub fn left_disks_are_found()
    ensures { LeftDisksAreFound }
{}

/// So from the disks of a session, all actors of which were stopped or not, sessions go on one after the other, each of which may be stopped at whatever
/// place: the disks stay usable, and the session that goes on from the last ones keeps each outcome of the first and is at rest at its end.
pub fn stops_keep_outcomes()
    ensures { StopsKeepOutcomes }
{}
