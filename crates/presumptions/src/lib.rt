//! The commit protocols of the sites: what each forces and acknowledges, and what it presumes.
//!
//! Presumed nothing is the basic two-phase commit of Mohan, Lindsay and Obermarck (ACM TODS 11(4), 1986); presumed abort and
//! presumed commit are of the same paper. Which record is forced and which acknowledgement is sent is this project's profile.
#![tactic(auto)]

ghost use Rattle.std.specs.Prelude.{◌≡◌};
ghost use Rattle.presumptions.specs.Table as table;

use mdb_base::{Keyed, Rising, SiteId};

/// How a site commits.
#[derive(Clone, Copy, Debug, PartialEq, Eq)]
pub enum Protocol {
    /// Presumed nothing.
    Nothing,
    /// Presumed abort.
    Abort,
    /// Presumed commit.
    Commit,
}

/// How a global transaction ends.
#[derive(Clone, Copy, Debug, PartialEq, Eq)]
pub enum Decision {
    Commit,
    Abort,
}

/// A site that takes part in a global transaction, with its protocol.
#[derive(Clone, Copy, Debug, PartialEq, Eq)]
pub struct Participant {
    pub site: SiteId,
    pub protocol: Protocol,
}

impl Keyed for Participant {
    ghost key = { λ participant. participant.site.0 };
}

/// Participants by rising site.
pub type Participants = Rising<Participant>;

/// Whether a site of this protocol forces its Ended record at this decision, before it acknowledges.
pub fn forces(protocol: Protocol, decision: Decision) -> bool
    ensures { result ≡ table.forces protocol decision }
{
    match (protocol, decision) {
        (Protocol::Nothing, _) => true,
        (Protocol::Abort, Decision::Commit) => true,
        (Protocol::Commit, Decision::Abort) => true,
        _ => false,
    }
}

/// Whether a site of this protocol acknowledges this decision.
pub fn acks(protocol: Protocol, decision: Decision) -> bool
    ensures { result ≡ table.acks protocol decision }
{
    forces(protocol, decision)
}

/// What a site of this protocol is answered about a transaction that the coordinator doesn't know.
pub fn presumed(protocol: Protocol) -> Decision
    ensures { result ≡ table.presumed protocol }
{
    match protocol {
        Protocol::Nothing | Protocol::Abort => Decision::Abort,
        Protocol::Commit => Decision::Commit,
    }
}
