//! What breaks by which wrong rule.
ghost use Rattle.order_laws.specs.Orders.{Ranks};
ghost use Rattle.coord_laws.specs.Laws.{CommitOnce, CommitsCloseNoCycle, DecidedAreAwaited, DecisionsAreOutcomes, KnownAreBegun, RecordedAreBegun, RecordsNameParticipants, UndecidedAreUnmarked};
ghost use Rattle.commit_laws.specs.WrongRules.{commits_forgotten_at_once};
ghost use Rattle.federation_laws.specs.WrongRules.{commits_without_graph};
ghost use Rattle.refuted_rules.specs.Bounds.{ClosesLater, FinishesLater, as_if_all_were_local, one_for_each};
ghost use Rattle.refuted_rules.specs.Closings.{LeavesNoRest, closed_by_asking_first, closed_without_clearing, closed_without_disarming, closed_without_ending, closed_without_inquiries};
ghost use Rattle.refuted_rules.specs.Coordinators.{BreaksTheFact, IsMadeByNoEvents, fates_of_unbegun_recorded, commits_recorded_early, commits_unrecorded, initiations_name_every_site, repeated_votes_commit_again};
ghost use Rattle.refuted_rules.specs.Disks.{LosesARecord};
ghost use Rattle.refuted_rules.specs.Orders.{of_lesser_transaction};
ghost use Rattle.refuted_rules.specs.Policies.{RefusesConservatively, tickets_at_once};
ghost use Rattle.refuted_rules.specs.Rows.{DoesNotRise, MissesTheTable, puts_as_made, rows_of_the_start};
ghost use Rattle.refuted_rules.specs.Sites.{LeavesAClosedRunLive, LeavesItsFirstRows, MissesWhatWasTrimmed, closed_attempts_begin};

/// Where a coordinator decides commit without a record of it, a decision that it knows isn't the outcome, and none of its acknowledgements is
/// required. Where it writes the Commit record as soon as it asks for votes, an undecided attempt has one. Where it records an abort when it
/// is asked for the fate of a transaction that it never began, an attempt that wasn't begun is known and has a record. And Initiations that
/// name every site don't name the participants.
pub fn wrong_records()
    ensures outcomes { BreaksTheFact DecisionsAreOutcomes commits_unrecorded }
    ensures awaited { BreaksTheFact DecidedAreAwaited commits_unrecorded }
    ensures marked { BreaksTheFact UndecidedAreUnmarked commits_recorded_early }
    ensures known { BreaksTheFact KnownAreBegun fates_of_unbegun_recorded }
    ensures recorded { BreaksTheFact RecordedAreBegun fates_of_unbegun_recorded }
    ensures named { BreaksTheFact RecordsNameParticipants initiations_name_every_site }
{}

/// Where a coordinator records a Commit once more at a yes vote that it ignores, an attempt has two. Where it commits without a ticket graph,
/// the tickets of the committed attempts close a cycle (Georgakopoulos, Rusinkiewicz, Sheth 1994). And the past of a coordinator that
/// forgets commits at once isn't one that events make.
pub fn wrong_commits()
    ensures twice { BreaksTheFact CommitOnce repeated_votes_commit_again }
    ensures cycle { BreaksTheFact CommitsCloseNoCycle commits_without_graph }
    ensures unmade { IsMadeByNoEvents commits_forgotten_at_once }
{}

/// A coordinator that takes tickets at once, where they are to be taken conservatively, refuses a commit for a cycle.
pub fn wrong_policies()
    ensures { RefusesConservatively tickets_at_once }
{}

/// A site that begins a run at each first act that it would answer as unknown has a live run of an attempt that is closed there.
pub fn wrong_sites()
    ensures { LeavesAClosedRunLive closed_attempts_begin }
{}

/// A site that reads the records that stand on its disk, and not the Checkpoint among them, misses a committed transaction.
pub fn wrong_sums()
    ensures { MissesWhatWasTrimmed }
{}

/// Not every record survives that was appended: a stop loses one that wasn't synced.
pub fn wrong_survival()
    ensures { LosesARecord }
{}

/// A session isn't at rest where closing disarms no trip, clears no site, sends no decision again, or lets no site ask, nor where the sites ask
/// before the actors come back: a coordinator that is down answers none of them.
pub fn wrong_closings()
    ensures armed { LeavesNoRest closed_without_disarming }
    ensures live { LeavesNoRest closed_without_clearing }
    ensures known { LeavesNoRest closed_without_ending }
    ensures in_doubt { LeavesNoRest closed_without_inquiries }
    ensures unanswered { LeavesNoRest closed_by_asking_first }
{}

/// Attempts aren't ranked by transaction alone.
pub fn wrong_ranking()
    ensures { Ranks of_lesser_transaction → ⊥ }
{}

/// Closing takes more than one command for each before it in some session, and finishing more for a global transaction than for a local one.
pub fn wrong_bounds()
    ensures closing { ClosesLater one_for_each }
    ensures finishing { FinishesLater as_if_all_were_local }
{}

/// The rows that a site started from don't give its table once a run commits, also while it is up. And the writes of a run don't rise by
/// their keys in the order in which they were made.
pub fn wrong_rows()
    ensures table { MissesTheTable rows_of_the_start }
    ensures running { LeavesItsFirstRows }
    ensures rising { DoesNotRise puts_as_made }
{}
