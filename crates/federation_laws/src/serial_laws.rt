//! One order for all sites.
ghost use Rattle.commit_laws.specs.Forgetting.{ForgottenAreAcknowledged, ForgottenWhenNoneIsMissing, InquiriesAreAnsweredTheOutcome, KnownWhileMissing};
ghost use Rattle.commit_laws.specs.Outcomes.{SettlesSayTheOutcome, SitesAgree};
ghost use Rattle.fed_rules.specs.Headline.{Headline};
ghost use Rattle.federation_laws.specs.OneOrder.{AllAreOrdered, HasOneOrder, OfStories, OneAttemptEach, PartsMakeOneOrder};
ghost use Rattle.federation_laws.specs.SiteOrders.{SitesAreSerial};

use commit_laws::{
    attempts_are_forgotten_when_acknowledged, attempts_end_by_their_outcomes,
    inquiries_in_doubt_are_answered_the_outcome, sites_settle_alike, sites_settle_the_outcome,
};
use site_history::{each_site_of_a_story_is_serial, stories_have_right_lines};

/// Each site by itself: the members of its order, by their serial numbers and one after another, read alone what they were answered,
/// their tickets rise, and they leave what the site is due.
pub fn sites_are_serial_in_every_story()
    ensures { OfStories SitesAreSerial }
{
    each_site_of_a_story_is_serial();
}

/// Where each site is serial by itself, the commits agree and the members follow their programs, the orders of all sites have no cycle
/// together, and there is one order for all sites.
pub fn parts_make_one_order()
    ensures { PartsMakeOneOrder }
{}

/// The federation is serializable, after any commands, in the middle of a run too. The orders of all sites have no cycle together, so
/// the printed order is a merge of them, the only one with the least attempt at each place; and running the programs one at a time in this
/// order, or in any other merge, gives every read of every member, through registers that flow between sites, and what is due at each
/// site. Every committed attempt stands in the orders, a global one in that of each site of its program, and of each transaction one
/// attempt at most. No global attempt ends differently at two sites: each settles its outcome. It is forgotten exactly when its required
/// acknowledgements are in, and an inquiry about it afterwards, from a site in doubt, is answered its outcome. The first clause is all of
/// it as one record of the rules, which names the printed order's members once and has each site's table where the site isn't in doubt.
pub fn federation_is_serializable()
    ensures headline { OfStories Headline }
    ensures one_order { OfStories HasOneOrder }
    ensures all { OfStories AllAreOrdered }
    ensures once { OfStories OneAttemptEach }
    ensures outcome { SettlesSayTheOutcome }
    ensures alike { SitesAgree }
    ensures known { KnownWhileMissing }
    ensures forgotten { ForgottenWhenNoneIsMissing }
    ensures acknowledged { ForgottenAreAcknowledged }
    ensures inquiries { InquiriesAreAnsweredTheOutcome }
{
    sites_are_serial_in_every_story();
    each_site_of_a_story_is_serial();
    stories_have_right_lines();
    sites_settle_the_outcome();
    sites_settle_alike();
    attempts_are_forgotten_when_acknowledged();
    inquiries_in_doubt_are_answered_the_outcome();
    attempts_end_by_their_outcomes();
}
