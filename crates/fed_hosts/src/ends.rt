//! The ends of rings that a host has.
use mdb_base::SiteId;
use scripted_link::{Inlet, Outlet};

/// The ends of the two rings between a site and the coordinator that one of them has. At the site the inlet is the end of the ring to
/// it, and the outlet that of the ring from it; at the coordinator it is the other way round.
#[derive(Drop)]
pub struct HostEnds {
    pub site: SiteId,
    pub inlet: Inlet,
    pub outlet: Outlet,
}
