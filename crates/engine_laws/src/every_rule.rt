//! The laws over all four rules at once, for what is generic in the engine.
ghost use Rattle.std.specs.Prelude.{List, ◌≡◌};
ghost use Rattle.engine_laws.specs.Epochs.{EpochsAreSerial};
ghost use Rattle.engine_laws.specs.Laws.{Always, HasRowsOfTable, HasTicketsInOrder, IsSerialSite, MayRestart, WithAnyCommits};
ghost use Rattle.fed_rules.specs.Runs.{Access, EngineLine, Start, puts_of, written};
ghost use Rattle.mdb_base.specs.Rising.{IsRising};
ghost use Rattle.mdb_base.specs.declared.rows.Put.{Put};

/// The committed runs, alone and by their serial numbers, read what they were answered.
pub fn each_site_is_serial()
    ensures { Always IsSerialSite }
{}

/// Tickets stand in the order of the serial numbers.
pub fn each_site_orders_tickets()
    ensures { Always HasTicketsInOrder }
{}

/// Both hold as well where any of the sealed runs are taken as committed.
pub fn each_site_commits_any_sealed()
    ensures serial { Always (WithAnyCommits IsSerialSite) }
    ensures tickets { Always (WithAnyCommits HasTicketsInOrder) }
{}

/// After a stop the sealed runs that are in doubt make a good start, and their commits leave what they would have left before.
pub fn each_site_may_restart()
    ensures { Always MayRestart }
{}

/// Over several epochs, each started after a stop of the one before, the committed runs of all of them are serial from the first
/// rows on, with their reads also where they were in doubt in between, whichever of the sealed ones are taken as committed.
pub fn epochs_are_serial()
    ensures { EpochsAreSerial }
{}

/// The rows of a site give its table, and rise by their keys where the first ones do.
pub fn rows_give_the_table()
    ensures { (start : Start) (lines : List EngineLine) → HasRowsOfTable start lines }
{}

/// The last writes of a run rise by their keys, and those of a restored run are the writes of its record.
pub fn restored_runs_keep_their_writes()
    ensures rising { (acts : List Access) → IsRising (λ put. put.key.0) (puts_of acts) }
    ensures kept { (puts : List Put) → IsRising (λ put. put.key.0) puts → puts_of (written puts) ≡ puts }
{}
