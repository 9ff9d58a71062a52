//! How often a subtransaction is sealed: a participant that has sent its acknowledgement never needs to ask about the transaction again
//! (Mohan, Lindsay, Obermarck 1986), and epochs and closed attempts keep old messages from sealing it anew (this project's profile).
ghost use Rattle.commit_laws.specs.LaterRuns.{FinishedAreNotSealed, LaterRunsLeaveNoRecord, LiveRunsAreUnheld};
ghost use Rattle.commit_laws.specs.SealLaws.{AcknowledgedAreNotInDoubt, AcknowledgedAreNotSealed, AttemptsAreSealedOnce, ClosedHaveNoLiveRun, CommitsMeetNoLiveRun, DecidedAreNotSealed, OnePreparedIsKept, PreparedInTheKnownEpoch};

/// At most one line of a site seals an attempt, lines that a stop ends included, and the Prepare that it takes names the site's epoch.
/// So at most one Prepared record of the attempt is kept, and its epoch is the one in which the coordinator knows the attempt at the site.
/// Behind a line that takes a decision on the attempt no line seals it, so a run that an old message begins later is never sealed.
pub fn attempts_are_sealed_once()
    ensures once { AttemptsAreSealedOnce }
    ensures kept_once { OnePreparedIsKept }
    ensures known_epoch { PreparedInTheKnownEpoch }
    ensures not_behind_a_decision { DecidedAreNotSealed }
{}

/// Once a site has sent an acknowledgement of an attempt, it isn't in doubt of it, and none of its later lines seals it.
pub fn acknowledged_attempts_are_over()
    ensures not_in_doubt { AcknowledgedAreNotInDoubt }
    ensures not_sealed { AcknowledgedAreNotSealed }
{}

/// A commit decision never meets a live run of the epoch in which the coordinator knows the attempt: a live run that it meets was begun
/// by an old message in a later epoch.
pub fn commits_meet_no_live_run()
    ensures { CommitsMeetNoLiveRun }
{}

/// A global attempt that is closed at a site, or that the site is in doubt of, has no live run there.
pub fn closed_attempts_have_no_live_run()
    ensures { ClosedHaveNoLiveRun }
{}

/// A later run of an attempt that is finished at a site, since a line of it took a decision on the attempt or sealed it, comes to nothing: a
/// repeated old operation may begin it behind a restart. No line seals it. The Prepared records of the attempt that are kept are old ones,
/// so it stands in no order. A decision on the attempt that meets it aborts it, is answered `unheld` and writes nothing.
pub fn later_runs_come_to_nothing()
    ensures not_sealed { FinishedAreNotSealed }
    ensures no_record { LaterRunsLeaveNoRecord }
    ensures unheld { LiveRunsAreUnheld }
{}
