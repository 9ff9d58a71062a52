//! An attempt that the coordinator knows.
ghost use Rattle.std.specs.Prelude.{◌≡◌, IfOk};
ghost use Rattle.protocol_table.specs.Attempts as attempts;
ghost use Rattle.protocol_table.specs.Ends as spec;

use crate::classes::uniform;
use crate::ends::{AckEnd, VoteEnd};
use crate::members::{Members, all_voted, lacks_ack, lacks_ack_of, lacks_vote, some_acks};
use mdb_base::{Memory, SiteId, Tid};
use presumptions::{Decision, Participants, Protocol};
use std::alloc::Global;

/// A known attempt: whether it has a record, its members, and its decision.
#[derive(Drop)]
pub struct Known {
    pub tid: Tid,
    pub initiated: bool,
    pub members: Members,
    pub decision: Option<Decision>,
}

/// An attempt that a restart finds with a record and not ended, and whether a Commit record of it is kept.
#[derive(Drop)]
pub struct Restored {
    pub tid: Tid,
    pub participants: Participants,
    pub committed: bool,
}

impl Known {
    ghost use Rattle.protocol_table.specs.Attempts.{restored};

    /// The attempt as a restart knows it.
    pub(crate) fn restored(alloc: Global, kept: &Restored) -> Result<Known, Memory>
        ensures { IfOk result (λ known. known ≡ restored kept.now) }
    {
        let members = Members::before_votes(alloc, &kept.participants)?;
        let decision = if kept.committed {
            Decision::Commit
        } else {
            Decision::Abort
        };
        Ok(Known {
            tid: kept.tid,
            initiated: true,
            members,
            decision: Some(decision),
        })
    }

    /// Whether its Initiation has to stand on the disk before its first Prepare is sent, and no record of it was written: presumed commit
    /// alone, and mixed participants have one.
    pub fn lacks_initiation(&self) -> bool
        ensures { result ≡ attempts.lacks_initiation self.now }
    {
        if self.initiated {
            return false;
        }
        match uniform(self.members.as_slice()) {
            Some(Protocol::Nothing | Protocol::Abort) => false,
            Some(Protocol::Commit) | None => true,
        }
    }

    /// Whether its abort is recorded once a Prepare was sent: that of presumed nothing alone.
    pub fn has_abort(&self) -> bool
        ensures { result ≡ attempts.has_abort_record self.now }
    {
        matches!(uniform(self.members.as_slice()), Some(Protocol::Nothing))
    }

    /// Counts the site's yes vote, unless the attempt is decided, the site is no member or its vote was counted.
    pub(crate) fn vote(&mut self, site: SiteId, ticket: u64) -> VoteEnd
        ensures end { result ≡ spec.vote_end site ticket self.old }
        ensures known { self.new ≡ spec.after_vote site ticket self.old }
    {
        if self.decision.is_some() || !lacks_vote(self.members.as_slice(), site) {
            return VoteEnd::Ignored;
        }
        self.members.note_vote(site, ticket);
        if all_voted(self.members.as_slice()) {
            VoteEnd::All
        } else {
            VoteEnd::More
        }
    }

    /// Whether no acknowledgement of the decision is required.
    pub(crate) fn forgets_at_once(&self, decision: Decision) -> bool
        ensures { result ≡ spec.forgets_at_once decision self.now }
    {
        if !self.initiated {
            return true;
        }
        !some_acks(self.members.as_slice(), decision)
    }

    /// Whether an acknowledgement of the site counts: the attempt is decided, and it is required and missing.
    pub fn awaits_ack(&self, site: SiteId) -> bool
        ensures { result ≡ spec.ack_counts site self.now }
    {
        match self.decision {
            None => false,
            Some(decision) => lacks_ack_of(self.members.as_slice(), site, decision, self.initiated),
        }
    }

    /// Counts the site's acknowledgement, if it is required and missing.
    pub(crate) fn ack(&mut self, site: SiteId) -> AckEnd
        ensures end { result ≡ spec.ack_end site self.old }
        ensures known { self.new ≡ spec.after_ack_of site self.old }
    {
        let decision = match self.decision {
            Some(decision) => decision,
            None => return AckEnd::Ignored,
        };
        if !lacks_ack_of(self.members.as_slice(), site, decision, self.initiated) {
            return AckEnd::Ignored;
        }
        self.members.note_ack(site);
        if lacks_ack(self.members.as_slice(), decision, self.initiated) {
            AckEnd::Acked
        } else {
            AckEnd::Forgets
        }
    }
}
