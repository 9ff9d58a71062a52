//! Worked examples: usable disks, and disks that contradict each other.
ghost use Rattle.std.specs.Prelude.{◌≡◌, reverse};
ghost use Rattle.fed_rules.specs.Resumed.{going_on, plan_of, rest_of, resumed, resumed_lines};
ghost use Rattle.fed_rules.specs.Scenarios.{protocols};
ghost use Rattle.fed_rules.specs.Usable.{IsUsableCoordinator, IsUsableSite};
ghost use Rattle.resume_laws.specs.Again.{left_again};
ghost use Rattle.resume_laws.specs.Closed.{IsSession};
ghost use Rattle.found_laws.specs.FoundSessions.{AreUsable};
ghost use Rattle.resume_laws.specs.WorkedDisks.{begun, one_local, two_disks, worked_lines};
ghost use Rattle.resume_laws.specs.WorkedStops.{KnowsAForgottenOne, in_doubt, left_behind, lines_behind, newest_left, stopped_session};

/// On the site's disk a local transaction 1 is committed, and on the coordinator's an attempt of transaction 2 is begun that visits the site. The disks are
/// usable. The session that goes on from them tells the site of the abort, which holds nothing of it and acknowledges.
pub fn another_transaction_is_begun()
    ensures usable { AreUsable (two_disks 2) }
    ensures lines { resumed_lines (two_disks 2) ≡ reverse (worked_lines 2) }
{}

/// Where it is transaction 1 that is begun, each disk alone is usable, and together they aren't. A session that went on from them would tell the site that a
/// transaction aborted which is committed there.
pub fn a_local_transaction_is_also_begun()
    ensures coordinator { IsUsableCoordinator (protocols (plan_of (two_disks 1))) (begun 1).records }
    ensures site { IsUsableSite 1 one_local.records }
    ensures foreign { AreUsable (two_disks 1) → ⊥ }
    ensures lines { resumed_lines (two_disks 1) ≡ reverse (worked_lines 1) }
{}

/// On the coordinator's disk a commit is found, and at the site a transaction in doubt. The session that goes on tells the site, which settles, and both are
/// stopped before the coordinator hears of it. The session that goes on from what this leaves ends as the first one ends where nothing stops it.
pub fn a_session_is_stopped_and_goes_on()
    ensures usable { AreUsable in_doubt }
    ensures session { IsSession (going_on in_doubt) }
    ensures left { left_again in_doubt stopped_session ≡ left_behind }
    ensures lines { resumed_lines left_behind ≡ reverse lines_behind }
    ensures rest { rest_of left_behind (resumed left_behind) ≡ rest_of in_doubt (resumed in_doubt) }
{}

/// Where only the newest record of each site's journal were left, that would be foreign.
pub fn a_newest_record_alone_is_foreign()
    ensures { AreUsable (newest_left left_behind) → ⊥ }
{}

/// Where the Ends of a Checkpoint weren't read, an attempt would be known after a restart that is forgotten.
pub fn a_checkpoint_is_read_with_its_ends()
    ensures { KnowsAForgottenOne }
{}
