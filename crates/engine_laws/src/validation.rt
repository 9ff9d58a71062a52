//! The laws of backward validation (Härder 1984), with the writes of prepared runs, which are this project's profile.
ghost use Rattle.engine_laws.specs.Laws.{AlwaysBy, HasTicketsInOrder, IsSerialSite, MayRestart, WithAnyCommits};
ghost use Rattle.engine_laws.specs.ReplyLaws.{AlwaysGrants, SealsByValidation};
ghost use Rattle.mdb_base.specs.declared.names.Engine.TheVariants.{Validation};

/// The committed runs, alone and by their serial numbers, read what they were answered.
pub fn validation_is_serial()
    ensures { AlwaysBy Validation IsSerialSite }
{}

/// Tickets stand in the order of the serial numbers.
pub fn validation_orders_tickets()
    ensures { AlwaysBy Validation HasTicketsInOrder }
{}

/// Both hold as well where any of the sealed runs are taken as committed.
pub fn validation_commits_any_sealed()
    ensures serial { AlwaysBy Validation (WithAnyCommits IsSerialSite) }
    ensures tickets { AlwaysBy Validation (WithAnyCommits HasTicketsInOrder) }
{}

/// After a stop the sealed runs that are in doubt make a good start, and their commits leave what they would have left before.
pub fn validation_may_restart()
    ensures { AlwaysBy Validation MayRestart }
{}

/// Every access and every ticket is granted. A sealing is invalid by the least bad key and the last of the runs that make it bad; with
/// no bad key it is refused where another ticket was published since the run took its own, and else it passes.
pub fn validation_answers()
    ensures granted { AlwaysBy Validation AlwaysGrants }
    ensures sealing { AlwaysBy Validation SealsByValidation }
{}
