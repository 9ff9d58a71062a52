//! Ways to end a session or a doubt that look right and aren't.
ghost use Rattle.progress_laws.specs.Progress.{answer_given, taken};
ghost use Rattle.progress_laws.specs.WrongRules.{LeavesADoubt, LeavesADoubtUndecided, LeavesUncommitted, LeavesUnsettled, closed_alone};

/// A doubt doesn't end where the coordinator takes the inquiry and the answer isn't given to the site, nor, where the
/// coordinator hasn't decided the attempt, where the site asks and it isn't given up first.
pub fn wrong_answers()
    ensures untold { LeavesADoubt taken }
    ensures undecided { LeavesADoubtUndecided answer_given }
{}

/// Closing alone doesn't leave each transaction with a commit.
pub fn wrong_ends()
    ensures { LeavesUncommitted closed_alone }
{}

/// Before a session is at rest, an attempt that committed needn't be settled at each site of its program.
pub fn wrong_rest()
    ensures { LeavesUnsettled }
{}
