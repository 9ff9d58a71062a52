//! How the attempts of a session that goes on end.
ghost use Rattle.resume_laws.specs.Outcomes.{OutcomesStay, SettlesAgree};

use commit_laws::inquiries_in_doubt_are_answered_the_outcome;

/// Of no attempt does a session that goes on from the disks that another one left change the outcome.
pub fn outcomes_stay()
    ensures { OutcomesStay }
{}

/// Each site that settles an attempt in a session that goes on from the disks that another one left, all actors of which were down, says the outcome
/// that the other session gave it.
pub fn settles_agree()
    ensures { SettlesAgree }
{
    inquiries_in_doubt_are_answered_the_outcome();
}
