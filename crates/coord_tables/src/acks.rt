//! What the acknowledgements of the sites change of the tables.
ghost use Rattle.std.specs.Prelude.{◌≡◌};
ghost use Rattle.mdb_base.specs.Words.{holds_of, map_some, or_else};
ghost use Rattle.protocol_table.specs.declared.ends.AckEnd.TheVariants as Ack;
ghost use Rattle.protocol_table.specs.Attempts.{known_of};
ghost use Rattle.protocol_table.specs.Ends.{ack_counts, ack_end, after_ack};

use crate::tables::Tables;
use mdb_base::{SiteId, Tid};
use protocol_table::AckEnd;

impl Tables {
    /// Whether a site's acknowledgement of a decision counts: it is required and missing.
    pub fn awaits_ack(&self, tid: Tid, site: SiteId) -> bool
        ensures { result ≡ holds_of (ack_counts site) (known_of tid self.now.known) }
    {
        match self.known.known(tid) {
            None => false,
            Some(known) => known.awaits_ack(site),
        }
    }

    /// Counts a site's acknowledgement of a decision, where it is required and missing. The last one takes the attempt out.
    pub fn ack(&mut self, tid: Tid, site: SiteId) -> AckEnd
        ensures end { result ≡ or_else (map_some (ack_end site) (known_of tid self.old.known)) Ack.Ignored }
        ensures tables { self.new ≡ record self.old { known = after_ack result tid site self.old.known } }
    {
        self.known.ack(tid, site)
    }
}
