//! What the calls of the table answer.
use presumptions::Decision;

/// What a yes vote comes to.
#[derive(Clone, Copy, Debug, PartialEq, Eq)]
pub enum VoteEnd {
    /// The vote doesn't count.
    Ignored,
    /// The vote counts, and another one is missing.
    More,
    /// The vote counts, and it was the last one.
    All,
}

/// What an acknowledgement comes to.
#[derive(Clone, Copy, Debug, PartialEq, Eq)]
pub enum AckEnd {
    /// The acknowledgement doesn't count.
    Ignored,
    /// The acknowledgement counts, and another required one is missing.
    Acked,
    /// The acknowledgement counts, and it was the last required one: the attempt is forgotten.
    Forgets,
}

/// What an inquiry about an attempt is answered.
#[derive(Clone, Copy, Debug, PartialEq, Eq)]
pub enum Said {
    /// The attempt is known without a decision.
    Undecided,
    /// The attempt is known, with this decision.
    Known(Decision),
    /// The attempt isn't known, and this is the inquirer's presumption.
    Presumed(Decision),
}
