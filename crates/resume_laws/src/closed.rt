//! How a session is closed, whether it began with empty disks or goes on from usable ones.
ghost use Rattle.resume_laws.specs.Closed.{SessionsCloseShortly, SessionsCloseAtRest, SessionsStayUp};

use closing_laws::{closed_sessions_rest, closing_is_bounded, closing_stays_up};

/// Whatever happened before, halts and trips included, every actor is up from the second step of closing on.
pub fn sessions_stay_up()
    ensures { SessionsStayUp }
{
    closing_stays_up();
}

/// Whatever happened before, behind the commands that close a session every actor is up, no trip is armed, and nothing is live, in doubt or known.
pub fn sessions_close_at_rest()
    ensures { SessionsCloseAtRest }
{
    closed_sessions_rest();
}

/// Closing makes at most 1,638,418 commands, however many came before it, if the attempts that found records name lie in their range.
pub fn sessions_close_shortly()
    ensures { SessionsCloseShortly }
{
    closing_is_bounded();
}
