//! What looks right of a session given again, and isn't.
ghost use Rattle.replay_laws.specs.WrongRules.{AddsAtRest, NextLinesDiffer, disarmed_always};

/// A closing that disarms a trip where none is armed adds a command to a session at rest.
pub fn wrong_closing()
    ensures { AddsAtRest disarmed_always }
{}

/// The right lines of a command behind others needn't be the same: a refusal may print another cycle, or one twice
/// round.
pub fn wrong_sameness()
    ensures { NextLinesDiffer }
{}
