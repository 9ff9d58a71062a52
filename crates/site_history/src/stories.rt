//! The same for each declared site of a scenario, in the story of any commands.
ghost use Rattle.site_history.specs.SiteOrders.{HasEpochs, IsSerialPast};
ghost use Rattle.site_history.specs.Stories.{EventsAreSorted, OfSites, OfSitesPreparedOnce, StoriesHaveRightLines, StoriesPrepareOnce};
ghost use Rattle.site_history.specs.Tickets.{TicketsRise};

/// In the story of any commands the past of a declared site is made by sorted events: what begins and commits as a local attempt is of a
/// local transaction, and the messages that the site takes were sent by the coordinator, which begins attempts of global ones only. All
/// Prepares of an attempt that it sends to the site name one epoch.
pub fn events_are_sorted()
    ensures { EventsAreSorted }
{}

/// At each declared site of every story each engine line may come there, its answer is the rule's, and the sealed runs are those in doubt.
pub fn stories_have_right_lines()
    ensures { StoriesHaveRightLines }
{}

/// At each declared site of every story no attempt is prepared twice.
pub fn stories_prepare_once()
    ensures { StoriesPrepareOnce }
{}

/// Each declared site of every story is serial over all its stops and restarts, which keep its sealed runs, where no attempt is prepared
/// twice.
pub fn stories_have_serial_sites()
    ensures epochs { OfSitesPreparedOnce HasEpochs }
    ensures serial { OfSitesPreparedOnce IsSerialPast }
{}

/// So each declared site of every story is serial by itself, with no premise.
pub fn each_site_of_a_story_is_serial()
    ensures epochs { OfSites HasEpochs }
    ensures serial { OfSites IsSerialPast }
{}

/// At each declared site of every story tickets rise, over all its stops and restarts: a ticket that is taken is greater than those of all
/// attempts that were prepared before.
pub fn tickets_rise()
    ensures { OfSites TicketsRise }
{}
