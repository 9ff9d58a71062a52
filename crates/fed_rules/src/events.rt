//! What happens to the core of a site and to the core of the coordinator.
use crate::Sends;
use crate::answers::Answer;
use crate::messages::{FromSite, ToSite};
use mdb_base::{PlainAct, Program, SiteId, Tid, Tx};

/// An event of a site.
#[derive(Clone, Copy)]
pub enum SiteEvent {
    /// A local attempt begins.
    Begin(Tid),
    /// The next access of a local attempt.
    Act { tid: Tid, act: PlainAct },
    /// A local attempt commits.
    Commit(Tid),
    /// A local attempt aborts.
    Abort(Tid),
    /// How did a local transaction end?
    Fate(Tx),
    /// A message of the coordinator comes.
    Give(ToSite),
    /// Ask the coordinator about a subtransaction in doubt.
    Ask(Tid),
    /// Drop a live subtransaction.
    Drop(Tid),
    /// Stop, and keep at most so many bytes behind the synced ones.
    Halt { cut: u64 },
    /// Stop right after so many further disk calls; 0 disarms.
    Trip { calls: u32, cut: u64 },
    /// Start again.
    Back,
    /// Write a Checkpoint, and trim what stands before it.
    Check,
}

/// What a site answers and sends at an event.
#[derive(Drop)]
pub struct SiteStep {
    pub answer: Answer,
    pub sends: Option<FromSite>,
}

/// An event of the coordinator.
#[derive(Drop)]
pub enum CoordEvent {
    /// A global attempt is submitted.
    Go { tid: Tid, program: Program },
    /// A message of this site comes.
    Take { site: SiteId, message: FromSite },
    /// Send again what is outstanding.
    Again(Tid),
    /// Give the attempt up.
    Late(Tid),
    /// How did a global transaction end?
    Fate(Tx),
    /// Stop, and keep at most so many bytes behind the synced ones.
    Halt { cut: u64 },
    /// Stop right after so many further disk calls; 0 disarms.
    Trip { calls: u32, cut: u64 },
    /// Start again.
    Back,
    /// Write a Checkpoint, and trim what stands before it.
    Check,
}

/// What the coordinator answers and sends at an event.
#[derive(Drop)]
pub struct CoordStep {
    pub answer: Answer,
    pub sends: Sends,
}
