//! Which commands the end of a session adds.
ghost use Rattle.progress_laws.specs.Added.{ClosingAddsItsOwn, FinishingAddsItsOwn};

/// Closing a session adds commands in front of those before: trips disarmed, actors brought back, attempts given up,
/// aborted and dropped, decisions sent again, messages and inquiries. Finishing each transaction alone adds what a
/// client does, and messages.
pub fn ends_add_their_own()
    ensures closing { ClosingAddsItsOwn }
    ensures finishing { FinishingAddsItsOwn }
{}
