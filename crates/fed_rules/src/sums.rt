//! What the records of a journal say together: the content of a Checkpoint.
use crate::{CommittedAttempts, DoubtfulSums, OpenAttempts};
use mdb_base::{Engine, Puts, SiteId, Tickets, Tid, Tids};
use presumptions::{Participants, Protocol};

/// A subtransaction in doubt, as its Prepared record says it.
#[derive(Drop)]
pub struct DoubtfulSum {
    pub tid: Tid,
    pub epoch: u32,
    pub number: u64,
    pub ticket: u64,
    pub writes: Puts,
}

/// What the records of a site say together.
#[derive(Drop)]
pub struct SiteSum {
    pub site: SiteId,
    pub engine: Engine,
    pub protocol: Protocol,
    /// The epoch of the last Start.
    pub epoch: u32,
    /// The greatest serial number.
    pub counter: u64,
    /// The greatest ticket, or 0, and the attempt that it belongs to.
    pub published: u64,
    pub owner: Option<Tid>,
    /// The table's rows.
    pub rows: Puts,
    /// The local attempts that committed, rising.
    pub locals: Tids,
    /// Those in doubt, by rising attempt.
    pub doubtful: DoubtfulSums,
}

/// An attempt that has an Initiation, a Commit or an Abort and no End, and isn't a commit of presumed commit alone.
#[derive(Drop)]
pub struct OpenAttempt {
    pub tid: Tid,
    pub participants: Participants,
}

/// An attempt that has a Commit, with its tickets.
#[derive(Drop)]
pub struct CommittedAttempt {
    pub tid: Tid,
    pub tickets: Tickets,
}

/// What the records of the coordinator say together, each list by rising attempt.
#[derive(Drop)]
pub struct CoordSum {
    pub open_attempts: OpenAttempts,
    pub committed: CommittedAttempts,
}
