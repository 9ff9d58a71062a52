//! What a coordinator's records say (the ticket method is of Georgakopoulos, Rusinkiewicz and Sheth 1994; the records are of this project's
//! profile of Al-Houmaily and Chrysanthis 1999).
ghost use Rattle.coord_laws.specs.Laws.{CommitOnce, CommitsCloseNoCycle, ParticipantsAreDeclared, RecordedAreBegun, RecordsNameParticipants};
ghost use Rattle.coord_laws.specs.Pasts.{OfPasts};

/// The records of an attempt name the participants of its program, which are sites of the table of protocols.
pub fn records_name_the_participants()
    ensures named { OfPasts RecordsNameParticipants }
    ensures declared { OfPasts ParticipantsAreDeclared }
{}

/// The attempts that have a record differ, and each was begun.
pub fn recorded_attempts_were_begun()
    ensures { OfPasts RecordedAreBegun }
{}

/// No attempt has two Commit records, and the tickets of the committed attempts close no cycle.
pub fn commits_close_no_cycle()
    ensures once { OfPasts CommitOnce }
    ensures cycle_free { OfPasts CommitsCloseNoCycle }
{}
