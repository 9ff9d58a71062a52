//! That a book and the ages follow the lines of an engine, and that the ages answer as its rule does: laws on the definitions alone, each
//! the contract of a function with an empty body.
ghost use Rattle.mdb_base.specs.declared.names.Engine.{Engine};
ghost use Rattle.mdb_base.specs.declared.names.Engine.TheVariants.{Timestamp, Multiversion};
ghost use Rattle.run_book.specs.Laws.{CallsWell, StartsWell, UnbeginsWell, UnsealsWell};
ghost use Rattle.run_book.specs.AgeLaws.{StopsAccess, StopsReader, StopsTaking, FollowsBegins, FollowsCalls, FollowsStarts, FollowsUnseals};

/// The book of an epoch that starts holds what the start says. A book that holds what right lines say holds it with one more right
/// line, once the call of that line has left it so; and it holds what the lines before say, once the newest begin or sealing is taken
/// back.
pub fn the_book_follows_the_lines()
    ensures starts { (kind : Engine) → StartsWell kind }
    ensures calls { (kind : Engine) → CallsWell kind }
    ensures unbegins { (kind : Engine) → UnbeginsWell kind }
    ensures unseals { (kind : Engine) → UnsealsWell kind }
{}

/// What stops an access, what a read waits for, and what stops the taking of the ticket are the rule's, where the ages are those that
/// right lines say.
pub fn the_ages_answer_as_the_rules()
    ensures timestamp_access { StopsAccess Timestamp }
    ensures multiversion_write { StopsAccess Multiversion }
    ensures multiversion_read { StopsReader Multiversion }
    ensures timestamp_ticket { StopsTaking Timestamp }
    ensures multiversion_ticket { StopsTaking Multiversion }
{}

/// Ages and takers that are those that right lines say are so with one more right line, once the call of that line was noted; and they
/// are those that the lines before say, once the newest begin or sealing is taken back.
pub fn the_ages_follow_the_lines()
    ensures starts { FollowsStarts }
    ensures begins { FollowsBegins }
    ensures timestamp_calls { FollowsCalls Timestamp }
    ensures multiversion_calls { FollowsCalls Multiversion }
    ensures timestamp_unseals { FollowsUnseals Timestamp }
    ensures multiversion_unseals { FollowsUnseals Multiversion }
{}
