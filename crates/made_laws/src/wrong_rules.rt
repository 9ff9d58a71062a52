//! Moves and counts that look right and aren't.
ghost use Rattle.made_laws.specs.WrongRules.{ChangesWorth, MissesACommit, committed_at_first, transfer_twice};

/// A program that takes an amount from one row and adds it twice to another changes what the tables are worth.
pub fn wrong_moves()
    ensures { ChangesWorth transfer_twice }
{}

/// The commits that one site and the coordinator keep aren't those of all transactions.
pub fn wrong_counts()
    ensures { MissesACommit committed_at_first }
{}
