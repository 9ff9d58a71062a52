//! That a book follows the lines of an engine: laws on the definitions alone, each the contract of a function with an empty body.
ghost use Rattle.site_book.specs.Calls.{CountsWell, NoneRunning, OrdersWell, RemembersWell, RunsWell};
ghost use Rattle.site_book.specs.Laws.{AnswersWell, CallsWell, CommitsWell, DecidesWell, NotesWell, StartsWell, StaysClosed, UndoesWell};

/// What is noted of a run are its finished operations, its kept reply and its reads by the rules. A book that follows the lines says
/// of each attempt whether it is live, sealed or closed.
pub fn the_book_says_what_the_lines_say()
    ensures notes { NotesWell }
    ensures answers { AnswersWell }
{}

/// The book of an epoch that starts follows the empty list of lines. A book that follows some lines follows them with one more, once
/// the call of that line has left it so; a local commit adds two, and a decision on an attempt without a run none. What is taken back
/// leaves the book as it was.
pub fn the_book_follows_the_lines()
    ensures starts { StartsWell }
    ensures calls { CallsWell }
    ensures commits { CommitsWell }
    ensures decides { DecidesWell }
    ensures stays { StaysClosed }
    ensures undoes { UndoesWell }
{}

/// Each call counts the begins of local attempts and remembers the commits. Where it may come, it keeps the running attempts of the
/// local transactions those that are live, which are the ones that the rules look up.
pub fn the_book_knows_the_local_transactions()
    ensures counts { CountsWell }
    ensures remembers { RemembersWell }
    ensures orders { OrdersWell }
    ensures none_running { NoneRunning }
    ensures runs { RunsWell }
{}
