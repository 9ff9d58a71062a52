//! The messages between the coordinator and a site.
use fed_rules::{FromSite, ToSite};
use mdb_base::SiteId;

/// All messages to and from one site, each list in the order of sending.
#[derive(Drop)]
pub struct Traffic {
    pub site: SiteId,
    pub to: Vec<ToSite>,
    pub from: Vec<FromSite>,
}
