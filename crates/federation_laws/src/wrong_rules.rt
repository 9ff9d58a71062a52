//! Rules that look right and aren't: of some story there is no such order.
ghost use Rattle.commit_laws.specs.WrongRules.{commits_forgotten_at_once};
ghost use Rattle.federation_laws.specs.WrongRules.{BreaksTheHeadline, HasNoOrder, IsNoMerge, by_decision_time, commits_without_graph};

/// Where every attempt commits for which all sites voted yes, with no ticket graph, some story has no order for all sites: two global
/// transactions without a common key are prepared in opposite orders, with a local transaction between them at each site.
pub fn wrong_commits()
    ensures { HasNoOrder commits_without_graph }
{}

/// The committed attempts by the time of their decisions are no order for all sites of some story, where attempts commit out of the order
/// of their tickets.
pub fn wrong_order()
    ensures { IsNoMerge by_decision_time }
{}

/// The headline doesn't hold of every story where a coordinator commits without a ticket graph, which leaves no order for all sites, nor
/// where it forgets commits without their acknowledgements, so that two sites may end an attempt differently.
pub fn wrong_headlines()
    ensures without_graph { BreaksTheHeadline commits_without_graph }
    ensures forgotten { BreaksTheHeadline commits_forgotten_at_once }
{}
