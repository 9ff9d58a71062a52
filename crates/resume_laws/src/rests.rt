//! How a session ends that goes on.
ghost use Rattle.resume_laws.specs.Rests.{ResumedSessionsRest, UsableSessionsRest};

/// At the end of a session that goes on from the disks that another one left every actor is up, no trip is armed, and nothing is live, in doubt or known.
pub fn resumed_sessions_rest()
    ensures { ResumedSessionsRest }
{}

/// At the end of a session that goes on from usable disks, whoever left them, every actor is up, no trip is armed, and nothing is live, in doubt or known.
pub fn usable_sessions_rest()
    ensures { UsableSessionsRest }
{}
