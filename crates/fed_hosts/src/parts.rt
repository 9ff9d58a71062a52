//! A host taken apart.
use crate::ends::HostEnds;
use engine_contract::LocalEngine;
use fed_rules::{FromMessages, StampedLines};
use journal_disk::Disk;
use local_dbms::LocalDbms;

/// What the host of a site leaves: its local database system and its disk, its lines in their order, the messages that it sent in
/// the order of sending, its ends, and whether a disk call failed.
#[derive(Drop)]
pub struct SiteParts<E: LocalEngine, D: Disk> {
    pub dbms: LocalDbms<E>,
    pub disk: D,
    pub lines: StampedLines,
    pub sent: FromMessages,
    pub ends: HostEnds,
    pub failed: bool,
}
