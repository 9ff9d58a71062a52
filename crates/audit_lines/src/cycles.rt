//! The cycle that a refusal names.
ghost use Rattle.std.specs.Prelude.{◌≡◌, reverse};
ghost use Rattle.audit_lines.specs.Edges as spec;

use crate::edges::is_edge;
use crate::votes::Candidate;
use fed_rules::CoordRecord;
use mdb_base::Edge;

impl Candidate {
    /// Whether these are one or more edges that go round from the candidate to itself, over the committed attempts that the coordinator's records tell,
    /// the oldest first. An edge takes time linear in the records.
    pub fn goes_round(&self, records: &[CoordRecord], edges: &[Edge]) -> bool
        ensures { result ≡ spec.goes_round self.now.tid self.now.tickets.items (reverse records.now) edges.now }
    {
        let mut at = self.tid;
        for edge in edges {
            if edge.from != at || !is_edge(self, records, *edge) {
                return false;
            }
            at = edge.to;
        }
        !edges.is_empty() && at == self.tid
    }
}
