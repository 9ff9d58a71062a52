//! The participants of a program.
ghost use Rattle.std.specs.Prelude.{◌≡◌, ◌≤◌, IfOk};
ghost use Rattle.mdb_base.specs.declared.names.SiteId.{SiteId as TheSite};
ghost use Rattle.fed_rules.specs.CoordPast.{participants_of, visits};
ghost use Rattle.global_exec.specs.Sets.{has_site};

use global_exec::SiteSet;
use mdb_base::{Memory, SiteId, Step};
use presumptions::Participants;
use std::alloc::Global;

/// The sites of these steps, of 1 to 8.
pub fn sites_of(steps: &[Step]) -> SiteSet
    ensures { (site : TheSite) → 1 ≤ site.0 → site.0 ≤ 8 → has_site result site ≡ visits site steps.now }
{
    let mut sites = SiteSet::none();
    for step in steps {
        sites = sites.with(step.site);
    }
    sites
}

/// Whether one of the steps is at the site.
fn visits(steps: &[Step], site: SiteId) -> bool
    ensures { result ≡ visits site steps.now }
{
    for step in steps {
        if step.site == site {
            return true;
        }
    }
    false
}

/// The participants of these steps, by rising site.
pub fn participants_in(
    alloc: Global,
    protocols: &Participants,
    steps: &[Step],
) -> Result<Participants, Memory>
    ensures { IfOk result (λ members. members ≡ participants_of protocols.now steps.now) }
{
    let mut members = Vec::with_capacity(alloc, protocols.len())?;
    for member in protocols.as_slice() {
        if visits(steps, member.site) {
            members.push(*member)?;
        }
    }
    Ok(Participants::of(members))
}
