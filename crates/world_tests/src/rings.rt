//! The rings between a host and the tests.
ghost use Rattle.std.specs.Prelude.{IfOk};
ghost use Rattle.world_tests.specs.HostSessions.{AreNew, IsNewRing};

use mdb_base::Memory;
use scripted_link::{Ends, Inlet, LinkScript, Outlet, channel};
use std::alloc::Global;

/// The ends of the two rings of a site that its host, or the coordinator's, doesn't have.
#[derive(Drop)]
pub(super) struct Link {
    pub(super) outlet: Outlet,
    pub(super) inlet: Inlet,
}

// A ring that lets all through, to which nothing was offered.
fn new_ring(alloc: Global) -> Result<Ends, Memory>
    ensures { IfOk result IsNewRing }
{
    channel(alloc, LinkScript::of(Vec::new(alloc)))
}

/// The two rings of a site, first the one to it.
pub(super) fn new_rings(alloc: Global) -> Result<(Ends, Ends), Memory>
    ensures { IfOk result AreNew }
{
    let to = new_ring(alloc)?;
    let from = new_ring(alloc)?;
    Ok((to, from))
}
