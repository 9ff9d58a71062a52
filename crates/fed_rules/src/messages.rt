//! What the coordinator and the sites send to one another, and what the coordinator still has to send.
use mdb_base::{Keyed, PlainAct, Reply, SiteId, Tid};
use presumptions::Decision;

/// A message to a site. An operation names the epoch of the replies that were taken from the site for this attempt, 0 before the
/// first, and counts the finished operations, 0 to 255.
#[derive(Clone, Copy)]
pub enum ToSite {
    /// Carry out this act.
    Work {
        tid: Tid,
        epoch: u32,
        n: u8,
        act: PlainAct,
    },
    /// Take the ticket.
    Take {
        tid: Tid,
        epoch: u32,
        n: u8,
    },
    /// Prepare to commit.
    Prepare {
        tid: Tid,
        epoch: u32,
        n: u8,
    },
    /// Commit or abort.
    Decide {
        tid: Tid,
        decision: Decision,
    },
}

/// A message from a site.
#[derive(Clone, Copy)]
pub enum FromSite {
    /// The reply to an operation, with the site's epoch and the operation's count.
    Did {
        tid: Tid,
        epoch: u32,
        n: u8,
        reply: Reply,
    },
    /// Yes with the ticket, or no.
    Vote {
        tid: Tid,
        yes: Option<u64>,
    },
    /// The decision is kept.
    Ack {
        tid: Tid,
    },
    /// How did it end?
    Inquiry {
        tid: Tid,
    },
}

/// A message with the site that it goes to.
#[derive(Clone, Copy)]
pub struct Sent {
    pub site: SiteId,
    pub message: ToSite,
}

impl Keyed for Sent {
    ghost key = { λ sent. sent.site.0 };
}

/// What is outstanding at a site for an attempt.
#[derive(Clone, Copy)]
pub enum Due {
    Work {
        site: SiteId,
        epoch: u32,
        n: u8,
        act: PlainAct,
    },
    Take {
        site: SiteId,
        epoch: u32,
        n: u8,
    },
    Prepare {
        site: SiteId,
        epoch: u32,
        n: u8,
    },
}

impl Keyed for Due {
    ghost use Rattle.fed_rules.specs.Site_of.{due_site};

    ghost key = { λ due. (due_site due).0 };
}
