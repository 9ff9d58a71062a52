//! What a site answers to an access, and the edges of the ticket graph.
use crate::names::{Key, SiteId, Tid};

/// Why a site aborts a transaction. Each names an attempt that stood in its way.
#[derive(Clone, Copy, Debug, PartialEq, Eq)]
pub enum Why {
    /// Wait-die: the younger one dies.
    Die { by: Tid },
    /// Timestamp order: a younger one was granted a conflicting access.
    Late { by: Tid },
    /// Backward validation: a key that was read has been written since, or by a prepared one.
    Invalid { by: Tid, key: Key },
    /// Backward validation: another one published a ticket since this one took its own.
    TicketMoved { by: Tid },
}

/// A site's answer to an operation of a transaction.
#[derive(Clone, Copy, Debug, PartialEq, Eq)]
pub enum Reply {
    Done,
    Value(u64),
    Ticket(u64),
    /// Nothing changed, and the operation may be tried again.
    Wait { by: Tid },
    /// The transaction is aborted at this site.
    Refused(Why),
    /// The operation fits nothing that the site has.
    Unknown,
}

/// An edge of the ticket graph: at this site `from` has a smaller ticket than `to`.
#[derive(Clone, Copy, Debug, PartialEq, Eq)]
pub struct Edge {
    pub from: Tid,
    pub to: Tid,
    pub site: SiteId,
}
