//! What is so of every journal.
ghost use Rattle.std.specs.Prelude.{List, map};
ghost use Rattle.engine_laws.specs.Laws.{EachOnce};
ghost use Rattle.fed_rules.specs.declared.records.SiteRecord.{SiteRecord};
ghost use Rattle.fed_rules.specs.SiteRecords.{Home, kept_held};
ghost use Rattle.fed_rules.specs.SiteSums.{journal_sum};
ghost use Rattle.prepared_state.specs.Book.{AreApart};
ghost use Rattle.journal_sums.specs.Starts.{doubt_held};

/// What a journal has in doubt are different attempts, as an engine and a book of doubts ask at a start.
pub fn doubts_differ()
    ensures kept { (home : Home) (journal : List SiteRecord) → EachOnce (map kept_held (journal_sum home journal).doubtful) }
    ensures doubts { (home : Home) (journal : List SiteRecord) → AreApart (map doubt_held (journal_sum home journal).doubtful) }
{}
