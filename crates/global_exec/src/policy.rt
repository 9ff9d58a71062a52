//! When tickets may be taken.
ghost use Rattle.std.specs.Prelude.{◌≡◌, ◌≤◌, ◌||◌};
ghost use Rattle.mdb_base.specs.declared.names.SiteId.{SiteId as TheSite};
ghost use Rattle.mdb_base.specs.Names.{same_site};
ghost use Rattle.global_exec.specs.Sets.{has_site};

use mdb_base::SiteId;

/// A set of sites: bit s - 1 stands for site s.
#[derive(Clone, Copy, Debug, PartialEq, Eq)]
pub struct SiteSet(pub u8);

impl SiteSet {
    /// No site.
    pub fn none() -> SiteSet
        ensures { result.0 ≡ 0 }
    {
        SiteSet(0)
    }

    /// The set with this site too, if it is one of 1 to 8.
    pub fn with(self, site: SiteId) -> SiteSet
        ensures { (other : TheSite) → 1 ≤ other.0 → other.0 ≤ 8 → has_site result other ≡ (has_site self other || same_site site other) }
    {
        if site.0 == 0 || site.0 > 8 {
            return self;
        }
        let bit = 1u8 << (site.0 - 1);
        SiteSet(self.0 | bit)
    }
}

/// Whether an attempt may begin to take its tickets. What a policy answers is a test of the policy, of the sites of the attempt's own
/// participants and of those of each other attempt that has begun to take its tickets and isn't decided.
pub trait TakePolicy: Drop {
    ghost use Rattle.std.specs.Prelude.{map};
    ghost use Rattle.fed_rules.specs.Policies.{Policy};
    ghost use Rattle.global_exec.specs.Sets.{sites_in};

    /// The policy's test, over lists of sites.
    ghost policy: { Self → Policy };

    /// Whether the attempt with these participants may begin to take its tickets beside these others.
    fn may_take(&self, own: SiteSet, others: &[SiteSet]) -> bool
        ensures { result ≡ policy self.now (sites_in own) (map sites_in others.now) };
}

/// The policy of the optimistic method: tickets may always be taken.
#[derive(Clone, Copy, Debug, PartialEq, Eq)]
pub struct Always;

impl TakePolicy for Always {
    ghost use Rattle.fed_rules.specs.Policies.{always};

    ghost policy = { λ policy. always };

    fn may_take(&self, _own: SiteSet, _others: &[SiteSet]) -> bool {
        true
    }
}
