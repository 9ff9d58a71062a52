//! Which attempts a coordinator knows (this project's profile of Al-Houmaily and Chrysanthis 1999).
ghost use Rattle.coord_laws.specs.Laws.{BeginInOrder, BeginOnce, DecidedAreAwaited, DecisionsAreOutcomes, KnownAreBegun, UnbegunAreUnsent, UndecidedAreUnmarked};
ghost use Rattle.coord_laws.specs.Pasts.{OfPasts};

/// No attempt begins twice, and those of a transaction are numbered from 0 on: one was begun exactly where its number is less than how many
/// of its transaction were.
pub fn attempts_begin_in_order()
    ensures once { OfPasts BeginOnce }
    ensures in_order { OfPasts BeginInOrder }
{}

/// An attempt that is undecided, or the decision of which is known, was begun.
pub fn known_attempts_were_begun()
    ensures { OfPasts KnownAreBegun }
{}

/// Neither a Take nor a Prepare was sent of an attempt that wasn't begun.
pub fn unbegun_attempts_were_not_sent()
    ensures { OfPasts UnbegunAreUnsent }
{}

/// An undecided attempt has no Commit and no End record.
pub fn undecided_attempts_are_unmarked()
    ensures { OfPasts UndecidedAreUnmarked }
{}

/// A decision that is known is the outcome that the records give, and it is known only while a required acknowledgement is missing.
pub fn decisions_are_outcomes()
    ensures outcome { OfPasts DecisionsAreOutcomes }
    ensures awaited { OfPasts DecidedAreAwaited }
{}
