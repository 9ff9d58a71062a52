//! The messages of a session.
use fed_rules::{FromMessages, ToMessages};
use mdb_base::SiteId;

/// The messages to and from one site, each list in the order of sending.
#[derive(Drop)]
pub struct Channel {
    pub site: SiteId,
    pub to: ToMessages,
    pub from: FromMessages,
}
