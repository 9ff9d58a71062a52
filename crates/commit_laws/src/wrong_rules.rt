//! Rules that look right and aren't: by each of them some commands make a story in which a law of commitment breaks.
ghost use Rattle.std.specs.Prelude.{◌≡◌, List};
ghost use Rattle.commit_laws.specs.WrongRules.{BreaksTheEpoch, BreaksTheOutcome, SealsALaterRun, abort_always_presumed, aborts_acknowledged_early, commit_always_presumed, commits_forgotten_at_once, epochs_ignored, prepares_sent_early, right_rules, story_by, torn_records_kept};
ghost use Rattle.presumptions.specs.declared.Protocol.TheVariants.{Abort as By_abort, Commit as By_commit, Nothing as By_nothing};
ghost use Rattle.fed_rules.specs.Story.{story_of};
ghost use Rattle.fed_rules.specs.declared.commands.Command.{Command};
ghost use Rattle.fed_rules.specs.declared.scenario.Scenario.{Scenario};

/// By the rules themselves, in the form of the wrong ones, the story of any commands is their story.
pub fn right_rules_in_this_form()
    ensures { (scenario : Scenario) (commands : List Command) → story_by right_rules scenario commands ≡ story_of scenario commands }
{}

/// A site of presumed commit settles an attempt otherwise than by its outcome where it acknowledges an abort before its Ended record is
/// synced.
pub fn wrong_acknowledgement()
    ensures { BreaksTheOutcome aborts_acknowledged_early By_commit }
{}

/// So does a site of presumed nothing or presumed abort where the coordinator forgets a commit without their acknowledgements.
pub fn wrong_forgetting()
    ensures presumed_nothing { BreaksTheOutcome commits_forgotten_at_once By_nothing }
    ensures presumed_abort { BreaksTheOutcome commits_forgotten_at_once By_abort }
{}

/// So does a site of presumed commit where the coordinator answers every inquiry about an unknown attempt by abort, and where it sends a
/// Prepare while the Initiation is only appended. So do a site of presumed nothing and one of presumed abort where the coordinator answers
/// every such inquiry by commit. And so does a site of presumed nothing where a restart of the coordinator keeps a torn record.
pub fn wrong_coordinators()
    ensures abort_presumed { BreaksTheOutcome abort_always_presumed By_commit }
    ensures commit_presumed { BreaksTheOutcome commit_always_presumed By_nothing }
    ensures commit_presumed_by_abort { BreaksTheOutcome commit_always_presumed By_abort }
    ensures unsynced_initiations { BreaksTheOutcome prepares_sent_early By_commit }
    ensures torn_records { BreaksTheOutcome torn_records_kept By_nothing }
{}

/// A site that compares no epochs seals an attempt in another epoch than its Prepare names, and a later run of one that is finished there.
pub fn wrong_epochs()
    ensures elsewhere { BreaksTheEpoch epochs_ignored }
    ensures later { SealsALaterRun epochs_ignored }
{}
