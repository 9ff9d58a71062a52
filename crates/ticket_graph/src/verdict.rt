//! What adding an attempt comes to.
use mdb_base::Edges;

/// Whether an attempt was added, or which cycle it would close.
#[derive(Drop)]
pub enum Verdict {
    Added,
    /// The first edge leaves the attempt, and the last one enters it.
    Cycle(Edges),
}
