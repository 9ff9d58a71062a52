//! How far an attempt is, and how a local transaction stands.
ghost use Rattle.std.specs.Prelude.{◌≡◌, ◌<◌, Some, IfSome};
ghost use Rattle.site_book.specs.Book.{live_part, on_live, replied, taken};

use crate::live_run::LiveRun;
use mdb_base::{PlainAct, Reply, Tid};

/// How far an attempt of this epoch is.
#[derive(Drop)]
pub enum Progress {
    /// Neither sealed nor ended.
    Live(LiveRun),
    /// A subtransaction in doubt.
    Sealed,
    /// Its run ended in this epoch, or a decision on it was taken.
    Closed,
}

/// How a local transaction stands where it is running or committed.
#[derive(Clone, Copy)]
pub enum Standing {
    /// In this live attempt.
    Running(Tid),
    /// By this attempt.
    Committed(Tid),
}

impl Progress {
    /// Notes the reply to an access, where the attempt is live.
    pub(crate) fn note_reply(&mut self, act: PlainAct, reply: Reply)
        requires { IfSome (live_part (Some self.old)) (λ noted. noted.accesses < 32) }
        ensures { self.new ≡ on_live (replied reply act) self.old }
    {
        if let Progress::Live(run) = self {
            run.note_reply(act, reply);
        }
    }

    /// Notes the reply to the taking of the ticket, where the attempt is live.
    pub(crate) fn note_take(&mut self, reply: Reply)
        ensures { self.new ≡ on_live (taken reply) self.old }
    {
        if let Progress::Live(run) = self {
            run.note_take(reply);
        }
    }
}
