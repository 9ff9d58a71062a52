//! What a session leaves whose process ends.
ghost use Rattle.left_disks.specs.Ended.{EndedSessionsAreFoundAgain, EndedSessionsLeaveDisks};

use resume_laws::sessions_go_on;

/// Behind whatever command a session's process ends, and whichever of its actors are up there: its disks are those that it leaves where each actor is
/// halted and loses nothing. By these halts no attempt gets another outcome, and the printed order stays. So what is said of disks that a session left
/// is said of them.
pub fn ended_sessions_leave_disks()
    ensures { EndedSessionsLeaveDisks }
{}

/// Who looks for journals on these disks finds what the session leaves, unless a call of a disk fails or there is no memory. From there a session goes on
/// rightly.
pub fn ended_sessions_are_found_again()
    ensures { EndedSessionsAreFoundAgain }
{
    sessions_go_on();
}
