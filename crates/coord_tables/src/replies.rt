//! Replies of sites to operations.
use mdb_base::{Reply, SiteId};

/// A reply of a site.
#[derive(Clone, Copy)]
pub struct Taken {
    pub site: SiteId,
    pub epoch: u32,
    pub n: u8,
    pub reply: Reply,
}
