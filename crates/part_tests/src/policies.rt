//! The policy on sets of sites.
use conservative_take::Conservative;
use global_exec::{SiteSet, TakePolicy};

// What a policy answers, through its trait.
fn answer<P: TakePolicy>(policy: &P, own: SiteSet, others: &[SiteSet]) -> bool {
    policy.may_take(own, others)
}

#[test]
fn a_site_in_common_holds_back(rt: HostRuntime) {
    for (own, other, may_take) in [
        (3, 4, true),
        (3, 2, false),
        (128, 192, false),
        (0, 255, true),
    ] {
        let others = [SiteSet(4), SiteSet(other)];
        assert!(rt;
            answer(&Conservative, SiteSet(own), &others) == may_take,
            "{own} {other}"
        );
    }
}
