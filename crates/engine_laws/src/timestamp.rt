//! The laws of strict timestamp order (Bernstein, Hadzilacos, Goodman 1987), without the rule of Thomas.
ghost use Rattle.engine_laws.specs.Laws.{AlwaysBy, HasTicketsInOrder, IsSerialSite, MayRestart, WithAnyCommits};
ghost use Rattle.engine_laws.specs.ReplyLaws.{AlwaysSeals, AnswersByAge, TakesByAge};
ghost use Rattle.mdb_base.specs.declared.names.Engine.TheVariants.{Timestamp};

/// The committed runs, alone and by their serial numbers, read what they were answered.
pub fn timestamp_is_serial()
    ensures { AlwaysBy Timestamp IsSerialSite }
{}

/// Tickets stand in the order of the serial numbers.
pub fn timestamp_orders_tickets()
    ensures { AlwaysBy Timestamp HasTicketsInOrder }
{}

/// Both hold as well where any of the sealed runs are taken as committed.
pub fn timestamp_commits_any_sealed()
    ensures serial { AlwaysBy Timestamp (WithAnyCommits IsSerialSite) }
    ensures tickets { AlwaysBy Timestamp (WithAnyCommits HasTicketsInOrder) }
{}

/// After a stop the sealed runs that are in doubt make a good start, and their commits leave what they would have left before.
pub fn timestamp_may_restart()
    ensures { AlwaysBy Timestamp MayRestart }
{}

/// An access is too late behind the youngest younger run with a conflicting access that counts, else it waits for the older unended
/// run that has written the key, else it is granted. The ticket is taken likewise. Every sealing passes.
pub fn timestamp_answers()
    ensures access { AlwaysBy Timestamp AnswersByAge }
    ensures ticket { AlwaysBy Timestamp TakesByAge }
    ensures sealing { AlwaysBy Timestamp AlwaysSeals }
{}
