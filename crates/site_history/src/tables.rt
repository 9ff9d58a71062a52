//! That the engine of a site has the table of the site's records.
ghost use Rattle.site_history.specs.FoundSites.{OfFoundSites};
ghost use Rattle.site_history.specs.SiteOrders.{OfSortedEvents};
ghost use Rattle.site_history.specs.Stories.{OfSites};
ghost use Rattle.site_history.specs.Tables.{HasItsTable};

/// In every past of a site, over all its stops, restarts and Checkpoints, the rows of its engine are the table of its records, if local and
/// global transactions are told apart. So it is where the site goes on from a usable journal that was found on its disk, and at each
/// declared site of every story.
pub fn engines_have_the_tables_of_their_records()
    ensures made { OfSortedEvents HasItsTable }
    ensures found { OfFoundSites HasItsTable }
    ensures stories { OfSites HasItsTable }
{}
