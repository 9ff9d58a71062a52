//! The laws of strict two-phase locking with wait-die (Bernstein, Hadzilacos, Goodman 1987).
ghost use Rattle.engine_laws.specs.Laws.{AlwaysBy, HasNoConflicts, HasTicketsInOrder, IsSerialSite, MayRestart, WithAnyCommits};
ghost use Rattle.engine_laws.specs.ReplyLaws.{AlwaysSeals, AnswersByLocks, TakesByLocks};
ghost use Rattle.mdb_base.specs.declared.names.Engine.TheVariants.{Locking};

/// The committed runs, alone and by their serial numbers, read what they were answered.
pub fn locking_is_serial()
    ensures { AlwaysBy Locking IsSerialSite }
{}

/// Tickets stand in the order of the serial numbers.
pub fn locking_orders_tickets()
    ensures { AlwaysBy Locking HasTicketsInOrder }
{}

/// Both hold as well where any of the sealed runs are taken as committed.
pub fn locking_commits_any_sealed()
    ensures serial { AlwaysBy Locking (WithAnyCommits IsSerialSite) }
    ensures tickets { AlwaysBy Locking (WithAnyCommits HasTicketsInOrder) }
{}

/// After a stop the sealed runs that are in doubt make a good start, and their commits leave what they would have left before.
pub fn locking_may_restart()
    ensures { AlwaysBy Locking MayRestart }
{}

/// No unended run has read or written a key that another unended one wrote.
pub fn locking_has_no_conflicts()
    ensures { AlwaysBy Locking HasNoConflicts }
{}

/// An access is granted where no other unended run has a granted conflicting access; a requester older than all of those waits
/// for the oldest of them, and any other dies by it. The ticket is taken likewise. Every sealing passes.
pub fn locking_answers()
    ensures access { AlwaysBy Locking AnswersByLocks }
    ensures ticket { AlwaysBy Locking TakesByLocks }
    ensures sealing { AlwaysBy Locking AlwaysSeals }
{}
