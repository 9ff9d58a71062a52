//! How the search comes from the added attempt to others.
use mdb_base::SiteId;

/// How an attempt was reached first: by an edge at this site from the attempt of an earlier step, or from the added one.
#[derive(Clone, Copy, Debug, PartialEq, Eq)]
pub struct Step {
    pub attempt: usize,
    pub site: SiteId,
    /// The place of the earlier step.
    pub from: Option<usize>,
}
