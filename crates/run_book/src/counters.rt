//! The numbers of a site.
ghost use Rattle.std.specs.Prelude.{◌≡◌};

use mdb_base::Tid;

/// The numbers that a site has handed out in this epoch.
#[derive(Clone, Copy, Debug, PartialEq, Eq)]
pub struct Counters {
    /// The greatest number drawn.
    pub counter: u64,
    /// The published ticket.
    pub published: u64,
    /// Whose the published ticket is.
    pub owner: Option<Tid>,
}

impl Counters {
    ghost use Rattle.run_book.specs.Book.{sealed_counters};

    /// The counters after a sealing with this serial number and ticket: both rise, and who raises the published ticket owns it.
    pub fn sealed(self, tid: Tid, number: u64, ticket: u64) -> Self
        ensures { result ≡ sealed_counters tid number ticket self }
    {
        Counters {
            counter: number.max(self.counter),
            published: ticket.max(self.published),
            owner: if self.published < ticket {
                Some(tid)
            } else {
                self.owner
            },
        }
    }
}
