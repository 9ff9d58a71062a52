//! The conservative ticket method (Georgakopoulos, Rusinkiewicz, Sheth, TKDE 1994): attempts that have a site in common take their tickets
//! one after the other.
#![tactic(auto)]

ghost use Rattle.std.specs.Prelude.{◌≡◌, ◌<◌, ◌==◌};
ghost use Rattle.std.specs.Int.RustNames.{bit_and};
ghost use Rattle.mdb_base.specs.Words.{each_of};

mod any_policy;

pub use any_policy::AnyPolicy;
use global_exec::{SiteSet, TakePolicy};

/// The policy of the conservative method: an attempt may begin to take its tickets where it has no site in common with another attempt that
/// has begun to take its own and isn't decided.
#[derive(Clone, Copy, Debug, PartialEq, Eq)]
pub struct Conservative;

impl TakePolicy for Conservative {
    ghost use Rattle.fed_rules.specs.Policies.{conservatively};

    ghost policy = { λ policy. conservatively };

    fn may_take(&self, own: SiteSet, others: &[SiteSet]) -> bool {
        have_no_bit(own.0, others)
    }
}

/// Whether none of the sets has one of these bits.
fn have_no_bit(own: u8, others: &[SiteSet]) -> bool
    ensures sets { result ≡ each_of (λ other. bit_and own other.0 == 0) others.now }
    ensures byte { own < 256 }
{
    others.iter().all(|other| own & other.0 == 0)
}
