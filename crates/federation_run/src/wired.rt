//! The actors of a run with their scripted stops and their ends of the rings, before each gets its disk and its lock.
use any_engine::AnyEngine;
use conservative_take::AnyPolicy;
use fed_hosts::{HostEnds, Port};
use fed_rules::StopLine;
use global_manager::GlobalManager;
use local_dbms::LocalDbms;

/// All that the host of a site is made of but its disk: the local database system, its scripted stops in their order, and its ends of
/// the two rings.
#[derive(Drop)]
pub(crate) struct WiredSite {
    pub(crate) dbms: LocalDbms<AnyEngine>,
    pub(crate) stops: Vec<StopLine>,
    pub(crate) ends: HostEnds,
}

/// All that the hosts of a run are made of but their disks: the coordinator's front with its scripted stops, and for each declared site,
/// by rising site, the coordinator's ends of its rings, and what its own host is made of.
#[derive(Drop)]
pub(crate) struct WiredActors {
    pub(crate) manager: GlobalManager<AnyPolicy>,
    pub(crate) stops: Vec<StopLine>,
    pub(crate) ports: Vec<Port>,
    pub(crate) wired_sites: Vec<WiredSite>,
}
