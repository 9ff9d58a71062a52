//! What a site's Checkpoints say, and the journals that stand on its disk.
ghost use Rattle.fed_rules.specs.SitePast.{records};
ghost use Rattle.fed_rules.specs.SiteRecords.{Home};
ghost use Rattle.fed_rules.specs.SiteSums.{site_sum};
ghost use Rattle.fed_rules.specs.declared.records.SiteRecord.{SiteRecord};
ghost use Rattle.site_history.specs.FoundSites.{OfFoundSites};
ghost use Rattle.site_history.specs.SiteOrders.{OfSortedEvents};
ghost use Rattle.site_history.specs.Stories.{OfSites};
ghost use Rattle.site_history.specs.Sums.{plain, ComeInOrder, JournalSaysAll, JournalTellsStart, SumGoesOnBehind, SumsGoOn};
ghost use Rattle.std.specs.Prelude.{◌≡◌, List};

/// A Sum with newer records says what all the records together say, where each install comes in the order of the numbers of those
/// that write one of its keys.
pub fn sums_go_on()
    ensures in_order { SumsGoOn }
    ensures behind { SumGoesOnBehind }
{}

/// In every past of a site, over all its stops, restarts and Checkpoints, the journal on its disk says what all its records say, and
/// so what its engine starts from, if local and global transactions are told apart. So it is where the site goes on from a usable journal that was
/// found on its disk.
pub fn journals_say_all()
    ensures order { OfSortedEvents (λ home past. ComeInOrder (records home past)) }
    ensures all { OfSortedEvents JournalSaysAll }
    ensures start { OfSortedEvents JournalTellsStart }
    ensures found_order { OfFoundSites (λ home past. ComeInOrder (records home past)) }
    ensures found_all { OfFoundSites JournalSaysAll }
    ensures found_start { OfFoundSites JournalTellsStart }
{}

/// So it is at each declared site of every story.
pub fn sites_journals_say_all()
    ensures all { OfSites JournalSaysAll }
    ensures start { OfSites JournalTellsStart }
{}

/// A Checkpoint among the records says nothing new.
pub fn checkpoints_say_nothing_new()
    ensures { (home : Home) (records : List SiteRecord) → site_sum home (plain records) ≡ site_sum home records }
{}
