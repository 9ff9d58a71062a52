//! The laws of multiversion timestamp order with strict writes (Bernstein, Hadzilacos, Goodman 1987).
ghost use Rattle.engine_laws.specs.Laws.{AlwaysBy, HasTicketsInOrder, IsSerialSite, MayRestart, WithAnyCommits};
ghost use Rattle.engine_laws.specs.ReplyLaws.{AlwaysSeals, AnswersByVersion, ReadersPass, ReadsItsVersion};
ghost use Rattle.mdb_base.specs.declared.names.Engine.TheVariants.{Multiversion};

/// The committed runs, alone and by their serial numbers, read what they were answered.
pub fn multiversion_is_serial()
    ensures { AlwaysBy Multiversion IsSerialSite }
{}

/// Tickets stand in the order of the serial numbers.
pub fn multiversion_orders_tickets()
    ensures { AlwaysBy Multiversion HasTicketsInOrder }
{}

/// Both hold as well where any of the sealed runs are taken as committed.
pub fn multiversion_commits_any_sealed()
    ensures serial { AlwaysBy Multiversion (WithAnyCommits IsSerialSite) }
    ensures tickets { AlwaysBy Multiversion (WithAnyCommits HasTicketsInOrder) }
{}

/// After a stop the sealed runs that are in doubt make a good start, and their commits leave what they would have left before.
pub fn multiversion_may_restart()
    ensures { AlwaysBy Multiversion MayRestart }
{}

/// A granted read answers the run's own last write of the key, else the committed version with the greatest number below its own.
pub fn multiversion_reads_its_version()
    ensures { AlwaysBy Multiversion ReadsItsVersion }
{}

/// A run of reads alone without a ticket is never refused: no read comes too late, and every sealing passes.
pub fn multiversion_readers_pass()
    ensures readers { AlwaysBy Multiversion ReadersPass }
    ensures sealing { AlwaysBy Multiversion AlwaysSeals }
{}

/// A read waits for the older unended run that has written the key, unless the run wrote it itself, and else it is granted; a write is
/// answered as under timestamp order.
pub fn multiversion_answers()
    ensures { AlwaysBy Multiversion AnswersByVersion }
{}
