//! What the hosts of a run leave but their disks.
use any_engine::AnyEngine;
use conservative_take::AnyPolicy;
use fed_hosts::{HostEnds, Port};
use fed_rules::{FromMessages, StampedLines};
use global_manager::GlobalManager;
use local_dbms::LocalDbms;

/// What the host of a site left, with the number of the place that its disk was put back to.
#[derive(Drop)]
pub(crate) struct SiteLeft {
    pub(crate) actor: u8,
    pub(crate) dbms: LocalDbms<AnyEngine>,
    pub(crate) lines: StampedLines,
    pub(crate) sent: FromMessages,
    pub(crate) ends: HostEnds,
    pub(crate) failed: bool,
}

/// What the coordinator's host left.
#[derive(Drop)]
pub(crate) struct CoordLeft {
    pub(crate) manager: GlobalManager<AnyPolicy>,
    pub(crate) lines: StampedLines,
    pub(crate) ports: Vec<Port>,
    pub(crate) failed: bool,
}

/// What all hosts of a run left, those of the sites by rising actor.
#[derive(Drop)]
pub(crate) struct Left {
    pub(crate) coordinator: CoordLeft,
    pub(crate) sites: Vec<SiteLeft>,
}
