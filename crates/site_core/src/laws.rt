//! What holds of every past that the core of a site stands for.
ghost use Rattle.fed_rules.specs.SitePast.{SitePast};
ghost use Rattle.fed_rules.specs.SiteRecords.{Home};
ghost use Rattle.site_history.specs.Events.{PreparesOnce};
ghost use Rattle.site_history.specs.Lines.{HasRightLines};
ghost use Rattle.site_history.specs.SiteOrders.{HasGoodStarts, IsSerialPast};
ghost use Rattle.site_history.specs.Sums.{JournalSaysAll, JournalTellsStart};
ghost use Rattle.site_history.specs.Tables.{HasItsTable};
ghost use Rattle.site_core.specs.Made.{IsGoingOn, IsMade};

/// Whatever events made the past of a site, over all its stops, starts and Checkpoints: each engine line may come there and answers by the
/// rule, and the sealed runs are those in doubt; each epoch starts well; the journal on the disk says what all records say; and the rows of
/// the engine are the table of the records. Where no attempt is prepared twice, the committed attempts by their serial numbers are serial,
/// and so they are with all prepared ones whose outcome is commit. All but the serial order also holds where a site goes on from a usable
/// journal that was found on its disk.
pub fn made_pasts_are_serial()
    ensures lines { (home : Home) (past : SitePast) → IsMade home past → HasRightLines home past }
    ensures starts { (home : Home) (past : SitePast) → IsMade home past → HasGoodStarts home past }
    ensures sums { (home : Home) (past : SitePast) → IsMade home past → JournalSaysAll home past }
    ensures restarts { (home : Home) (past : SitePast) → IsMade home past → JournalTellsStart home past }
    ensures tables { (home : Home) (past : SitePast) → IsMade home past → HasItsTable home past }
    ensures lines_on { (home : Home) (past : SitePast) → IsGoingOn home past → HasRightLines home past }
    ensures starts_on { (home : Home) (past : SitePast) → IsGoingOn home past → HasGoodStarts home past }
    ensures sums_on { (home : Home) (past : SitePast) → IsGoingOn home past → JournalSaysAll home past }
    ensures restarts_on { (home : Home) (past : SitePast) → IsGoingOn home past → JournalTellsStart home past }
    ensures tables_on { (home : Home) (past : SitePast) → IsGoingOn home past → HasItsTable home past }
    ensures serial { (home : Home) (past : SitePast) → IsMade home past → PreparesOnce home past → IsSerialPast home past }
{}
