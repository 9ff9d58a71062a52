//! The orders of several sites.
ghost use Rattle.std.specs.Prelude.{List, Option};
ghost use Rattle.order_laws.specs.Chains.{Acyclic};
ghost use Rattle.order_laws.specs.Sites.{AreSites, BeforeAtSite};

use crate::chain_laws::Node;

/// Where the items without a home agree with edges that have no cycle, the orders of all sites have none together:
/// a cycle through items at home stays at one site between two of the others.
pub fn sites_are_cycle_free<S, N: Node>()
    ensures { (order : S → List N) (home : N → Option S) → AreSites order home N.edge → Acyclic N.edge → Acyclic (BeforeAtSite order) }
{}
