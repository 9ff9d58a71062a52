//! What the past of the coordinator is.
ghost use Rattle.commit_laws.specs.Pasts.{CoordinatorsAreMadeByEvents};

/// In the story of any commands the coordinator's past is one that events make, and each `go` among them is of the next attempt of its
/// transaction, so what holds of every such past holds of the coordinator in every story.
pub fn coordinators_are_made_by_events()
    ensures { CoordinatorsAreMadeByEvents }
{}
