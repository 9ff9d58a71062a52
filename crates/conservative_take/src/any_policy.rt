//! Either policy.
ghost use Rattle.std.specs.Prelude.{◌≡◌};
ghost use Rattle.fed_rules.specs.Policies.{policy_of};
ghost use Rattle.conservative_take.specs.AnyPolicies.{policy_is};

use crate::Conservative;
use global_exec::{Always, SiteSet, TakePolicy};

/// When tickets may be taken: by the optimistic method always, or by the conservative one.
#[derive(Clone, Copy, Debug, PartialEq, Eq)]
pub enum AnyPolicy {
    Always,
    Conservative,
}

impl AnyPolicy {
    /// The policy of a scenario, conservative or not.
    pub fn of(conservative: bool) -> AnyPolicy
        ensures { policy_is result ≡ policy_of conservative }
    {
        if conservative {
            AnyPolicy::Conservative
        } else {
            AnyPolicy::Always
        }
    }
}

impl TakePolicy for AnyPolicy {
    ghost policy = { policy_is };

    fn may_take(&self, own: SiteSet, others: &[SiteSet]) -> bool {
        match self {
            AnyPolicy::Always => Always.may_take(own, others),
            AnyPolicy::Conservative => Conservative.may_take(own, others),
        }
    }
}
