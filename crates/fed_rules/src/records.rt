//! The records that a site and the coordinator keep on their disks.
use crate::sums::{CoordSum, SiteSum};
use mdb_base::{Engine, Puts, SiteId, Tickets, Tid};
use presumptions::{Decision, Participants, Protocol};

/// A record of a site's journal.
#[derive(Drop)]
pub enum SiteRecord {
    /// The first record: the site, its rule, its protocol and its first rows.
    Setup {
        site: SiteId,
        engine: Engine,
        protocol: Protocol,
        items: Puts,
    },
    /// A start of the site. Epochs count from 1.
    Start {
        epoch: u32,
    },
    /// A subtransaction is prepared, with its epoch, serial number, ticket and writes.
    Prepared {
        tid: Tid,
        epoch: u32,
        number: u64,
        ticket: u64,
        writes: Puts,
    },
    /// A prepared subtransaction ended.
    Ended {
        tid: Tid,
        decision: Decision,
    },
    /// A local transaction committed, with its serial number and writes.
    Local {
        tid: Tid,
        number: u64,
        writes: Puts,
    },
    /// What all records before it say together.
    Checkpoint(SiteSum),
}

/// A record of the coordinator's journal.
#[derive(Drop)]
pub enum CoordRecord {
    /// The attempt is about to be prepared at these sites.
    Initiation {
        tid: Tid,
        participants: Participants,
    },
    /// The attempt is decided commit, with these tickets.
    Commit {
        tid: Tid,
        tickets: Tickets,
    },
    /// The attempt is decided abort, and these sites, which all presume nothing, have to acknowledge it.
    Abort {
        tid: Tid,
        participants: Participants,
    },
    /// Every required acknowledgement is in.
    End {
        tid: Tid,
    },
    /// What all records before it say together.
    Checkpoint(CoordSum),
}
